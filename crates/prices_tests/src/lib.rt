// Tests of the calendar, the prices and the zones' sources; and that what a source answers is what it means.
#![tactic(auto)]

ghost use Rattle.std.specs.Prelude.{◌≡◌};
ghost use Rattle.prices.specs.Sources.{reference_means, daily_means, monthly_means, share_means, toll_means};

#[cfg(test)]
mod tests;

use prices::{Daily, Lack, Monthly, Point, PriceSource, Reference, Share, Span, Toll};

// Kept: the new form is no plainer: each of the three shows one definition, over its own type.

// A share of daily prices answers what it means.
pub(crate) fn share_of_daily(source: &Share<Daily>, point: Point, span: Span) -> Result<u32, Lack>
    ensures { result ≡ share_means daily_means source.now point span.from span.to }
{
    source.price(point, span)
}

// Tolls over a share of monthly prices answer what they mean.
pub(crate) fn toll_over_share(
    source: &Toll<Share<Monthly>>,
    point: Point,
    span: Span,
) -> Result<u32, Lack>
    ensures { result ≡ toll_means (share_means monthly_means) source.now point span.from span.to }
{
    source.price(point, span)
}

// A reference price answers what it means.
pub(crate) fn reference(source: &Reference, point: Point, span: Span) -> Result<u32, Lack>
    ensures { result ≡ reference_means source.now point span.from span.to }
{
    source.price(point, span)
}
