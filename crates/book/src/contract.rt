// What is fixed when a term is opened.
use prices::Point;

#[derive(Clone, Copy, Debug, PartialEq, Eq)]
pub struct Contract {
    pub pool: u32,
    pub point: Point,
    pub mdv: u32,
    pub first: u32,
    pub last: u32,
}
