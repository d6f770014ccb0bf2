// The trait of rate zones: a balancing rule and three price sources as one, with what they mean.
ghost use Rattle.std.specs.Prelude.{◌≡◌};
ghost use Rattle.balancing.specs.Edges.{band_of};
ghost use Rattle.book.specs.Meanings.{Meaning, Lawful};

use balancing::{Edges, Extent};
use prices::{Lack, Point, Span};

pub trait RateZone {
    // What the zone means: a band for a term's MDV and days, and three quotes.
    ghost means: { Self → Meaning };

    // The edges of a term.
    fn edges(&self, extent: Extent) -> Edges
        ensures { band_of result ≡ (means self.now).band extent.mdv extent.days };

    // Kept: the new form is no plainer: three sources with three names; which one a call asks is what the rules say.
    // The overrun price at a point over a span, or the day that lacks one.
    fn overrun(&self, point: Point, span: Span) -> Result<u32, Lack>
        ensures { result ≡ (means self.now).overrun point span.from span.to };

    // The shortage price, in the same way.
    fn shortage(&self, point: Point, span: Span) -> Result<u32, Lack>
        ensures { result ≡ (means self.now).shortage point span.from span.to };

    // The excess price, in the same way.
    fn excess(&self, point: Point, span: Span) -> Result<u32, Lack>
        ensures { result ≡ (means self.now).excess point span.from span.to };

    // Its bands are edges in order, within the limit of gas, and both 0 outside a term's ranges; its prices keep their
    // limit, and a lacking day is a day.
    ghost lawful: { (z : Self) → Lawful (means z) };
}
