// Making a ledger.
ghost use Rattle.std.specs.Prelude.{◌≡◌, true, MatchResult};
ghost use Rattle.book.specs.Allowances.{allowed};
ghost use Rattle.book.specs.State.{new_book};
ghost use Rattle.ledger.specs.Making.{Unmade};
ghost use Rattle.tables.specs.View.{view};

use crate::ledger::Ledger;
use book::Allowances;
use calls::Refusal;
use std::alloc::Global;
use tables::Tables;
use zones::NotMade;

impl<Z: Drop> Ledger<Z> {
    // A new ledger of a zone, with a suspension allowance for each point of at most 10,000,000 a day.
    pub fn new(heap: Global, zone: Z, allowances: Allowances) -> Result<Ledger<Z>, NotMade>
        ensures { MatchResult result
            (λ l. (allowed allowances ≡ true) × (view l.tables ≡ new_book allowances) × (l.zone ≡ zone))
            (Unmade allowances) }
    {
        match Tables::new(heap, allowances)? {
            Some(tables) => Ok(Ledger { tables, zone }),
            None => Err(NotMade::Refused(Refusal::OutOfRange)),
        }
    }
}
