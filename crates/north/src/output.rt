// What a northern run comes to: the answer words, and where it stopped, if it did.
use journal::Stop;

#[derive(Debug, PartialEq, Eq, Drop)]
pub struct Output {
    pub words: Vec<u32>,
    pub stop: Option<Stop>,
}
