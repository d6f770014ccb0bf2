// Where and why reading a journal stopped.
use calls::Refusal;

#[derive(Clone, Copy, Debug, PartialEq, Eq)]
pub struct Stop {
    pub refusal: Refusal,
    pub place: usize,
}
