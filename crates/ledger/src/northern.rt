// The northern ledger: no balance is carried, one reference price for all three sources, 500,000 suspended at each
// point.
ghost use Rattle.std.specs.Prelude.{◌≡◌, IfOk, IfErr};
ghost use Rattle.book.specs.State.{new_book};
ghost use Rattle.tables.specs.View.{view};
ghost use Rattle.zones.specs.Ledgers.{north_means, north_allowances, NorthUnmade};

use crate::ledger::Ledger;
use book::Allowances;
use std::alloc::Global;
use zones::{NorthZone, NotMade, RateZone, north_zone};

// What may be suspended on a day at each point, in m³.
const NORTH_ALLOWANCE: u32 = 500_000;

pub type NorthLedger = Ledger<NorthZone>;

// A new northern ledger, refused if the price is above 10,000,000.
pub fn north_ledger(heap: Global, price: u32) -> Result<NorthLedger, NotMade>
    ensures tables { IfOk result (λ l. view l.tables ≡ new_book north_allowances) }
    ensures means { IfOk result (λ l. ⟦<NorthZone as RateZone>⟧.means l.zone ≡ north_means price) }
    ensures refused { IfErr result (NorthUnmade price) }
{
    let zone = north_zone(price)?;
    let allowances = Allowances {
        western: NORTH_ALLOWANCE,
        dawn: NORTH_ALLOWANCE,
        ontario: NORTH_ALLOWANCE,
    };
    Ledger::new(heap, zone, allowances)
}
