// A term's extent: its MDV and its number of days.
ghost use Rattle.std.specs.Prelude.{◌≡◌, ◌*◌, ◌≤◌, is_some, IfSome};
ghost use Rattle.balancing.specs.Limits.{volume_limit};
ghost use Rattle.balancing.specs.Terms.{is_term};

use crate::limits::{MDV_LIMIT, TERM_DAYS};

// How much gas a term moves a day, and on how many days.
#[derive(Clone, Copy, Debug, PartialEq, Eq)]
pub struct Extent {
    pub mdv: u32,
    pub days: u32,
}

impl Extent {
    // The volume of a term, its MDV on each of its days; none if the figures are outside a term's ranges.
    pub fn volume(self) -> Option<u32>
        ensures test { is_some result ≡ is_term self.mdv self.days }
        ensures volume { IfSome result (λ v. v ≡ self.mdv * self.days) }
        ensures most { IfSome result (λ v. v ≤ volume_limit) }
    {
        if !(1..=MDV_LIMIT).contains(&self.mdv) || !(1..=TERM_DAYS).contains(&self.days) {
            return None;
        }
        Some(self.mdv * self.days)
    }
}
