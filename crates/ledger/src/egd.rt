// The EGD ledger.
ghost use Rattle.std.specs.Prelude.{◌≡◌, true, IfOk, IfErr};
ghost use Rattle.book.specs.State.{new_book};
ghost use Rattle.tables.specs.View.{view};
ghost use Rattle.zones.specs.Ledgers.{egd_means, egd_makes, EgdUnmade};

use crate::ledger::Ledger;
use book::Allowances;
use std::alloc::Global;
use zones::{EgdZone, NotMade, RateZone, egd_zone};

pub type EgdLedger = Ledger<EgdZone>;

// A new EGD ledger with daily highs from a starting day on and a monthly index from January 2024 on; refused if the
// starting day is no day, a list is too long or an allowance is above 10,000,000.
pub fn egd_ledger(
    heap: Global,
    start: u32,
    highs: &[u32],
    index: &[u32],
    allowances: Allowances,
) -> Result<EgdLedger, NotMade>
    ensures tables { IfOk result (λ l. view l.tables ≡ new_book allowances) }
    ensures means { IfOk result (λ l. ⟦<EgdZone as RateZone>⟧.means l.zone ≡ egd_means start highs.now index.now) }
    ensures range { IfOk result (λ l. egd_makes start highs.now index.now allowances ≡ true) }
    ensures refused { IfErr result (EgdUnmade start highs.now index.now allowances) }
{
    let zone = egd_zone(heap, start, highs, index)?;
    Ledger::new(heap, zone, allowances)
}
