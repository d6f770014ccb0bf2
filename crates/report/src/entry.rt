// One call of a run: the day on which it was made, what was asked and what was answered.
use calls::{Answer, Call};

#[derive(Clone, Copy, Debug, PartialEq, Eq)]
pub struct Entry {
    pub day: u32,
    pub call: Call,
    pub answer: Answer,
}
