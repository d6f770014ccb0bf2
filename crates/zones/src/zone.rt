// A rate zone that is made of any balancing rule and any three price sources.
ghost use Rattle.book.specs.Meanings.{meaning_of};

use crate::rate_zone::RateZone;
use balancing::{BalancingRule, Edges, Extent};
use prices::{Lack, Point, PriceSource, Span};

#[derive(Debug, Drop)]
pub struct Zone<B, O, S, E> {
    pub rule: B,
    pub overrun: O,
    pub shortage: S,
    pub excess: E,
}

impl<B: BalancingRule, O: PriceSource, S: PriceSource, E: PriceSource> RateZone
    for Zone<B, O, S, E> {
    ghost means = { λ z. meaning_of (B.band z.rule) (O.quote z.overrun) (S.quote z.shortage) (E.quote z.excess) };

    ghost lawful = { λ z. record {
      sound = B.sound z.rule;
      outside = B.outside z.rule;
      overrun = O.fair z.overrun;
      shortage = S.fair z.shortage;
      excess = E.fair z.excess;
    } };

    fn edges(&self, extent: Extent) -> Edges {
        self.rule.edges(extent)
    }

    fn overrun(&self, point: Point, span: Span) -> Result<u32, Lack> {
        self.overrun.price(point, span)
    }

    fn shortage(&self, point: Point, span: Span) -> Result<u32, Lack> {
        self.shortage.price(point, span)
    }

    fn excess(&self, point: Point, span: Span) -> Result<u32, Lack> {
        self.excess.price(point, span)
    }
}
