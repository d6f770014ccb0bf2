// The share layer: a percentage of the price beneath.
ghost use Rattle.std.specs.Prelude.{◌≡◌, true, is_ok, IfOk};
ghost use Rattle.prices.specs.Layers.{is_percent, shared};
ghost use Rattle.std.proofs.Common.{rules, arith};

use crate::limits::PRICE_LIMIT;
use crate::point::Point;
use crate::refused::OutOfRange;
use crate::source::{Lack, PriceSource};
use crate::span::Span;

#[derive(Debug, Drop, PartialEq, Eq)]
pub struct Share<S> {
    pub percent: u32,
    pub source: S,
    ghost fair: { is_percent percent ≡ true },
}

impl<S: Drop> Share<S> {
    // The share of a source, refused outside 1 to 300 per cent.
    pub fn new(percent: u32, source: S) -> Result<Share<S>, OutOfRange>
        ensures test { is_ok result ≡ is_percent percent }
        ensures made { IfOk result (λ s. (s.percent ≡ percent) × (s.source ≡ source)) }
    {
        if !(1..=300).contains(&percent) {
            return Err(OutOfRange);
        }
        Ok(Share { percent, source })
    }
}

impl<S: PriceSource> PriceSource for Share<S> {
    ghost quote = { λ s. shared s.percent (S.PriceSource.quote s.source) };

    ghost fair = { first_of (Prim.search rules, Prim.grind (arith, Self.row.coded.inj)) };

    fn price(&self, point: Point, span: Span) -> Result<u32, Lack> {
        let price = self.source.price(point, span)?;
        let share = (u64::from(price) * u64::from(self.percent) + 50) / 100;
        Ok(share.min(u64::from(PRICE_LIMIT)) as u32)
    }
}
