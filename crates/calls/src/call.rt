// The calls, what each answers, and a statement's figures.
use crate::arguments::{Opening, Posting};
use crate::refusal::Refusal;
use crate::status::Status;

#[derive(Clone, Copy, Debug, PartialEq, Eq)]
pub enum Call {
    // turns to the next day
    Day,
    // opens a term
    Open(Opening),
    // books a term's next unposted day
    Post(Posting),
    // states a term
    Statement { term: u32 },
}

// What a call answers.
// Kept: the new form is no plainer: an answer is one of three in its words, and the book's is compared with it whole.
#[derive(Clone, Copy, Debug, PartialEq, Eq)]
pub enum Answer {
    Done(u32),
    Stated(StatedTerm),
    Refused(Refusal),
}

// A term as a statement has it: volumes in m³, lines in micros.
#[derive(Clone, Copy, Debug, PartialEq, Eq)]
pub struct StatedTerm {
    pub term: u32,
    pub pool: u32,
    pub status: Status,
    pub next: u32,
    pub balance: i64,
    pub on_offer: u32,
    pub lines: [i64; 5],
}
