// A price for each day, and the mean of it over a span.
ghost use Rattle.std.specs.Prelude.{◌≡◌, ℕ, Option};
ghost use Rattle.prices.specs.Laws.{FirstLack, Between, MeanFirst, MeanBetween};
ghost use Rattle.prices.specs.Means.{FairDay, mean_of};
ghost use Rattle.prices.specs.Totals.{Totals};

use crate::source::Lack;
use crate::span::Span;

pub trait DayPrices {
    // The price of each day, where there is one.
    ghost posted: { Self → ℕ → Option ℕ };

    fn on(&self, day: u32) -> Option<u32>
        ensures { result ≡ posted self.now day };

    // A day's price is at most 10,000,000.
    ghost fair: { (s : Self) (day : ℕ) → FairDay (posted s day) };
}

// The total over the days of a span, or the first day of it that has no price: one pass over the days.
fn total<D: DayPrices>(prices: &D, span: Span) -> Result<u64, Lack>
    ensures total { Totals (D.posted prices.now) span.from span.to result }
    ensures first { MeanFirst (D.posted prices.now) span.from span.to }
    ensures between { MeanBetween (D.posted prices.now) span.from span.to }
{
    let mut sum: u64 = 0;
    // Kept: tried; over `from..=to` and by `ok_or` a mean of a year's daily prices takes half as long again.
    for day in span.from..span.to + 1 {
        let Some(price) = prices.on(day) else {
            return Err(Lack { day });
        };
        sum += u64::from(price);
    }
    Ok(sum)
}

// The mean over the days of a span, or the first day of it that has no price.
pub fn mean<D: DayPrices>(prices: &D, span: Span) -> Result<u32, Lack>
    ensures value { result ≡ mean_of (D.posted prices.now) span.from span.to }
    ensures first { FirstLack (D.posted prices.now) span.from span.to result }
    ensures between { Between (D.posted prices.now) span.from span.to result }
{
    let total = total(prices, span)?;
    let n = u64::from(span.to + 1 - span.from);
    Ok(((2 * total + n) / (2 * n)) as u32)
}
