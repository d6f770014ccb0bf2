// The daily end: a price for each day from a starting day on.
ghost use Rattle.std.specs.Prelude.{◌≡◌, true, is_ok, IfOk, vec_len};
ghost use Rattle.prices.specs.Ends.{is_daily, daily_price, daily_quote};
ghost use Rattle.prices.specs.Entries.{daily_fair};
ghost use Rattle.prices.specs.MeansLemmas.{mean_fair};

use crate::days::{DayPrices, mean};
use crate::entry::entry;
use crate::point::Point;
use crate::refused::OutOfRange;
use crate::source::{Lack, PriceSource};
use crate::span::Span;
use calendar::LAST_DAY;

#[derive(Debug, Drop, PartialEq, Eq)]
pub struct Daily {
    pub start: u32,
    pub prices: Vec<u32>,
    ghost fair: { is_daily start (vec_len prices) ≡ true },
}

impl Daily {
    // The end with these prices, refused where it starts outside the days 1 to 3,653 or has more than 3,653 prices.
    pub fn new(start: u32, prices: Vec<u32>) -> Result<Daily, OutOfRange>
        ensures test { is_ok result ≡ is_daily start (vec_len prices) }
        ensures made { IfOk result (λ s. (s.start ≡ start) × (s.prices ≡ prices)) }
    {
        if !(1..=LAST_DAY).contains(&start) || prices.len() > LAST_DAY as usize {
            return Err(OutOfRange);
        }
        Ok(Daily { start, prices })
    }
}

impl DayPrices for Daily {
    ghost posted = { λ s. daily_price s.start s.prices.items };

    ghost fair = { λ s. daily_fair s.start s.prices.items };

    fn on(&self, day: u32) -> Option<u32> {
        if day < self.start {
            return None;
        }
        entry(&self.prices, day - self.start)
    }
}

// Kept: a promise needs it: one implementation for all of `DayPrices` would leave a caller's type none of its own.
impl PriceSource for Daily {
    ghost quote = { λ s. daily_quote s.start s.prices.items };

    ghost fair = { λ s _ from to low forward high.
        mean_fair _ from to low forward high (daily_fair s.start s.prices.items) };

    fn price(&self, _point: Point, span: Span) -> Result<u32, Lack> {
        mean(self, span)
    }
}
