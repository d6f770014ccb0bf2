// Making the tables: their places are reserved here, so that no call fails for want of memory.
ghost use Rattle.std.specs.Prelude.{◌≡◌, true, false, MatchOption, MatchResult};
ghost use Rattle.book.specs.Allowances.{allowed};
ghost use Rattle.book.specs.State.{new_book};
ghost use Rattle.tables.specs.View.{view};

use crate::tables::Tables;
use book::{Allowances, TERM_PLACES, allowed};
use std::alloc::{AllocError, Global};

impl Tables {
    // Tables at day 1, with no terms and room for all; none where an allowance is above its limit.
    pub fn new(heap: Global, allowances: Allowances) -> Result<Option<Tables>, AllocError>
        ensures { MatchResult result
            (λ made. MatchOption made (allowed allowances ≡ false)
            (λ t. (allowed allowances ≡ true) × (view t ≡ new_book allowances)))
            (λ _. allowed allowances ≡ true) }
    {
        if !allowed(allowances) {
            return Ok(None);
        }
        let terms = Vec::with_capacity(heap, TERM_PLACES)?;
        let gas = Vec::with_capacity(heap, TERM_PLACES)?;
        let lines = Vec::with_capacity(heap, TERM_PLACES)?;
        Ok(Some(Tables {
            day: 1,
            allowances,
            terms,
            gas,
            lines,
        }))
    }
}
