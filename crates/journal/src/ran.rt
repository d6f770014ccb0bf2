// What running a journal comes to: how many answer words were written, and where it stopped, if it did.
use crate::stop::Stop;

#[derive(Clone, Copy, Debug, PartialEq, Eq)]
pub struct Ran {
    pub written: usize,
    pub stop: Option<Stop>,
}
