// Adding to a row, and the rows of nothing.
ghost use Rattle.std.specs.Prelude.{◌≡◌, ◌^◌, ◌<◌, ◌≤◌, replicate, pos, ◌+ℤ◌, is_ok};
ghost use Rattle.std.specs.Prelude.{IfOk, IfErr, MatchResult, unsigned_abs};
ghost use Rattle.amounts.specs.Rows.{within, sums};

use crate::row::{Charges, Fault, Gas, Row};

impl<const N: usize, const LIMIT: u64> Row<N, LIMIT> {
    // The row with more added, place by place; refused exactly where a place would pass the limit.
    pub fn plus(&self, more: &[i64; N]) -> Result<Row<N, LIMIT>, Fault<LIMIT>>
        ensures test { is_ok result ≡ within LIMIT (sums self.now.figures more.now) }
        ensures made { IfOk result (λ s. s.figures ≡ sums self.now.figures more.now) }
        ensures refused { IfErr result (λ e. e ≡ Fault.PastLimit) }
    {
        let mut figures = self.figures;
        // Kept: tried; the proof did not close: after `iter_mut().zip(..)` nothing is known of what was written.
        for (i, more) in more.iter().enumerate() {
            figures[i] = added(figures[i], *more)?;
        }
        Ok(Row { figures })
    }
}

// One place: what is had and what is added, if that is within the limit.
fn added<const LIMIT: u64>(have: i64, more: i64) -> Result<i64, Fault<LIMIT>>
    requires { LIMIT < 2 ^ 62 }
    ensures { MatchResult result (λ s. (s ≡ have +ℤ more) × (unsigned_abs s ≤ LIMIT))
        (λ e. (e ≡ Fault.PastLimit) × (LIMIT < unsigned_abs (have +ℤ more))) }
{
    match have.checked_add(more) {
        Some(sum) if sum.unsigned_abs() <= LIMIT => Ok(sum),
        _ => Err(Fault::PastLimit),
    }
}

// Kept: a rule of the project needs it: one `none` for both would ask `LIMIT < 2 ^ 62` of its callers.
impl Gas {
    pub fn none() -> Gas
        ensures { result.figures ≡ replicate 1 (pos 0) }
    {
        Row { figures: [0; 1] }
    }
}

impl Charges {
    pub fn none() -> Charges
        ensures { result.figures ≡ replicate 5 (pos 0) }
    {
        Row { figures: [0; 5] }
    }
}
