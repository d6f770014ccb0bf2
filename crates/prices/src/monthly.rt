// The monthly end: a price for each month from January 2024 on.
ghost use Rattle.std.specs.Prelude.{◌≡◌, true, is_ok, IfOk, vec_len};
ghost use Rattle.prices.specs.Ends.{is_monthly, monthly_price, monthly_quote};
ghost use Rattle.prices.specs.Entries.{monthly_fair};
ghost use Rattle.prices.specs.MeansLemmas.{mean_fair};

use crate::days::{DayPrices, mean};
use crate::entry::entry;
use crate::point::Point;
use crate::refused::OutOfRange;
use crate::source::{Lack, PriceSource};
use crate::span::Span;
use calendar::{MONTH_COUNT, month_of};

#[derive(Debug, Drop, PartialEq, Eq)]
pub struct Monthly {
    pub prices: Vec<u32>,
    ghost fair: { is_monthly (vec_len prices) ≡ true },
}

impl Monthly {
    // The end with these prices, refused where there are more than 120.
    pub fn new(prices: Vec<u32>) -> Result<Monthly, OutOfRange>
        ensures test { is_ok result ≡ is_monthly (vec_len prices) }
        ensures made { IfOk result (λ s. s.prices ≡ prices) }
    {
        if prices.len() > MONTH_COUNT as usize {
            return Err(OutOfRange);
        }
        Ok(Monthly { prices })
    }
}

impl DayPrices for Monthly {
    ghost posted = { λ s. monthly_price s.prices.items };

    ghost fair = { λ s. monthly_fair s.prices.items };

    fn on(&self, day: u32) -> Option<u32> {
        entry(&self.prices, month_of(day)?)
    }
}

// Kept: a promise needs it, as at `Daily`.
impl PriceSource for Monthly {
    ghost quote = { λ s. monthly_quote s.prices.items };

    ghost fair = { λ s _ from to low forward high. mean_fair _ from to low forward high (monthly_fair s.prices.items) };

    fn price(&self, _point: Point, span: Span) -> Result<u32, Lack> {
        mean(self, span)
    }
}
