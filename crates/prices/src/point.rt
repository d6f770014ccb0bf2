// The points of receipt.
ghost use Rattle.std.specs.Prelude.{◌≡◌, Some};
ghost use Rattle.std.specs.Result.{result_ok};
ghost use Rattle.prices.specs.Points.{point_at, point_name, point_number};

use crate::refused::OutOfRange;
use std::fmt;

// A point where gas is received.
#[derive(Clone, Copy, Debug, PartialEq, Eq)]
pub enum Point {
    Western = 1,
    Dawn = 2,
    Ontario = 3,
}

// The point of a number: 1 Western, 2 Dawn, 3 Ontario, and no other.
impl TryFrom<u32> for Point {
    type Error = OutOfRange;

    ghost try_from_gives = { λ number r. result_ok r ≡ point_at number };

    fn try_from(number: u32) -> Result<Self, OutOfRange> {
        match number {
            1 => Ok(Point::Western),
            2 => Ok(Point::Dawn),
            3 => Ok(Point::Ontario),
            _ => Err(OutOfRange),
        }
    }
}

// The number of a point.
impl From<Point> for u32 {
    ghost from_gives = { λ point number. number ≡ point_number point };

    fn from(point: Point) -> u32 {
        point as u32
    }
}

// A point is written as its name.
impl fmt::Display for Point {
    ghost output = { λ point. Some (point_name point) };

    fn fmt<W: fmt::Write>(&self, f: &mut fmt::Formatter<W>) -> fmt::Result {
        f.write_str(match self {
            Point::Western => "Western",
            Point::Dawn => "Dawn",
            Point::Ontario => "Ontario",
        })
    }
}
