// The trait of price sources, with its meaning.
ghost use Rattle.std.specs.Prelude.{◌≡◌, Some};
ghost use Rattle.prices.specs.Quotes.{Quote, FairQuote};

use crate::point::Point;
use crate::span::Span;
use std::error::Error;
use std::fmt;

// A price that a source lacks: the day it is lacking for.
#[derive(Clone, Copy, Debug, PartialEq, Eq)]
pub struct Lack {
    pub day: u32,
}

// What is written of a lack.
impl fmt::Display for Lack {
    ghost use Rattle.prices.specs.Lacks.{lack_text};

    ghost output = { λ l. Some (lack_text l) };

    fn fmt<W: fmt::Write>(&self, f: &mut fmt::Formatter<W>) -> fmt::Result {
        write!(f, "no price for day {}", self.day)
    }
}

impl Error for Lack {}

pub trait PriceSource {
    // What the source means: for a point and a span of days, a price or a lacking day.
    ghost quote: { Self → Quote };

    fn price(&self, point: Point, span: Span) -> Result<u32, Lack>
        ensures { result ≡ quote self.now point span.from span.to };

    // A price is at most 10,000,000, and a lacking day is a day, 1 to 3,653.
    ghost fair: { (s : Self) → FairQuote (quote s) };
}
