// The arguments of the calls that have several, a struct for each.

// A term that is to be opened.
#[derive(Clone, Copy, Debug, PartialEq, Eq)]
pub struct Opening {
    pub pool: u32,
    pub point: u32,
    pub mdv: u32,
    pub first: u32,
    pub last: u32,
}

// The volumes of a term's next unposted day.
#[derive(Clone, Copy, Debug, PartialEq, Eq)]
pub struct Posting {
    pub term: u32,
    pub delivered: u32,
    pub consumed: u32,
}
