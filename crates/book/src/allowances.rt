// The suspension allowances of the three points.
ghost use Rattle.std.specs.Prelude.{◌≡◌};
ghost use Rattle.book.specs.Allowances.{allowed};

use crate::limits::ALLOWANCE_LIMIT;
use prices::ByPoint;

// The volumes that may be suspended on a day, for each point.
pub type Allowances = ByPoint<u32>;

// Whether none is above its limit.
pub fn allowed(a: Allowances) -> bool
    ensures { result ≡ allowed a }
{
    a.western <= ALLOWANCE_LIMIT && a.dawn <= ALLOWANCE_LIMIT && a.ontario <= ALLOWANCE_LIMIT
}
