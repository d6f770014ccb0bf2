// A span of days, both ends within it.
ghost use Rattle.std.specs.Prelude.{◌≡◌, ◌≤◌, true, is_ok, IfOk};
ghost use Rattle.calendar.specs.Days.{last_day};
ghost use Rattle.prices.specs.Spans.{is_span};

use crate::refused::OutOfRange;
use calendar::LAST_DAY;

#[derive(Clone, Copy, Debug, PartialEq, Eq)]
pub struct Span {
    pub from: u32,
    pub to: u32,
    ghost starts: { 1 ≤ from },
    ghost forward: { from ≤ to },
    ghost within: { to ≤ last_day },
}

impl Span {
    // The span from one day to another, refused if it runs backwards or leaves the days 1 to 3,653.
    pub fn new(from: u32, to: u32) -> Result<Span, OutOfRange>
        ensures test { is_ok result ≡ is_span from to }
        ensures made { IfOk result (λ s. (s.from ≡ from) × (s.to ≡ to)) }
    {
        if from < 1 || from > to || to > LAST_DAY {
            return Err(OutOfRange);
        }
        Ok(Span { from, to })
    }
}
