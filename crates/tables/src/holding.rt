// A term found in the tables: its place and its row.
use crate::term::Term;

#[derive(Clone, Copy, Debug, PartialEq, Eq)]
pub struct Holding {
    pub at: usize,
    pub term: Term,
}
