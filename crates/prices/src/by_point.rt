// A figure for each point.
ghost use Rattle.std.specs.Prelude.{◌≡◌};

use crate::point::Point;

// One figure for each point of receipt.
#[derive(Clone, Copy, Debug, PartialEq, Eq)]
pub struct ByPoint<T> {
    pub western: T,
    pub dawn: T,
    pub ontario: T,
}

// Tolls: a signed figure for each point.
pub type Tolls = ByPoint<i32>;

impl<T: Copy> ByPoint<T> {
    ghost use Rattle.prices.specs.Points.{at_point};

    // The figure of a point.
    pub fn at(self, point: Point) -> T
        ensures { result ≡ at_point self point }
    {
        match point {
            Point::Western => self.western,
            Point::Dawn => self.dawn,
            Point::Ontario => self.ontario,
        }
    }
}
