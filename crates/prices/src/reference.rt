// The reference end: one price for every point and every day.
ghost use Rattle.std.specs.Prelude.{◌≡◌, ◌≤◌, is_ok, IfOk, Ok, nat_le};
ghost use Rattle.prices.specs.Limits.{price_limit};
ghost use Rattle.std.proofs.Common.{rules, arith};

use crate::limits::PRICE_LIMIT;
use crate::point::Point;
use crate::refused::OutOfRange;
use crate::source::{Lack, PriceSource};
use crate::span::Span;

#[derive(Clone, Copy, Debug, PartialEq, Eq)]
pub struct Reference {
    pub price: u32,
    ghost fair: { price ≤ price_limit },
}

impl Reference {
    // The end with this price, refused above 10,000,000.
    pub fn new(price: u32) -> Result<Reference, OutOfRange>
        ensures test { is_ok result ≡ nat_le price price_limit }
        ensures made { IfOk result (λ s. s.price ≡ price) }
    {
        if price > PRICE_LIMIT {
            return Err(OutOfRange);
        }
        Ok(Reference { price })
    }
}

impl PriceSource for Reference {
    ghost quote = { λ s _ _ _. Ok s.price };

    ghost fair = { first_of (Prim.search rules, Prim.grind (arith, Self.row.coded.inj)) };

    fn price(&self, _point: Point, _span: Span) -> Result<u32, Lack> {
        Ok(self.price)
    }
}
