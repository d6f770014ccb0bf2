// The toll layer: the price beneath and a toll for its point.
ghost use Rattle.std.specs.Prelude.{◌≡◌, true, is_ok, IfOk};
ghost use Rattle.prices.specs.Layers.{is_toll, are_tolls, tolled};
ghost use Rattle.std.proofs.Common.{rules, arith};

use crate::by_point::Tolls;
use crate::limits::{PRICE_LIMIT, TOLL_LIMIT};
use crate::point::Point;
use crate::refused::OutOfRange;
use crate::source::{Lack, PriceSource};
use crate::span::Span;

// A toll is within 1,000,000 of 0, on either side.
fn is_toll(toll: i32) -> bool
    ensures { result ≡ is_toll toll }
{
    (-TOLL_LIMIT..=TOLL_LIMIT).contains(&toll)
}

#[derive(Debug, Drop, PartialEq, Eq)]
pub struct Toll<S> {
    pub tolls: Tolls,
    pub source: S,
    ghost fair: { are_tolls tolls ≡ true },
}

// Kept: the new form is no plainer: three tests say it, and one for each point would need a clause over closures.
impl<S: Drop> Toll<S> {
    // The source with these tolls, refused where one is below -1,000,000 or above 1,000,000.
    pub fn new(tolls: Tolls, source: S) -> Result<Toll<S>, OutOfRange>
        ensures test { is_ok result ≡ are_tolls tolls }
        ensures made { IfOk result (λ s. (s.tolls ≡ tolls) × (s.source ≡ source)) }
    {
        if is_toll(tolls.western) && is_toll(tolls.dawn) && is_toll(tolls.ontario) {
            return Ok(Toll { tolls, source });
        }
        Err(OutOfRange)
    }
}

impl<S: PriceSource> PriceSource for Toll<S> {
    ghost quote = { λ s. tolled s.tolls (S.PriceSource.quote s.source) };

    ghost fair = { first_of (Prim.search rules, Prim.grind (arith, Self.row.coded.inj)) };

    fn price(&self, point: Point, span: Span) -> Result<u32, Lack> {
        let price = self.source.price(point, span)?;
        let toll = self.tolls.at(point);
        Ok(price.saturating_add_signed(toll).min(PRICE_LIMIT))
    }
}
