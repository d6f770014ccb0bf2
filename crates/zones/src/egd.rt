// The EGD zone: balances are carried within 55 thousandths of a term's volume, and the prices come from daily highs and
// a monthly index.
ghost use Rattle.std.specs.Prelude.{◌≡◌, true, IfOk, IfErr};
ghost use Rattle.zones.specs.Ledgers.{egd_means, egd_sources, EgdZoneUnmade};

use crate::not_made::NotMade;
use crate::rate_zone::RateZone;
use crate::sources::{egd_excess, egd_overrun, egd_shortage};
use crate::zone::Zone;
use balancing::Egd;
use prices::{Daily, Monthly, Share, Toll};
use std::alloc::Global;

// A zone of EGD's rule, a share of daily highs, and tolls over shares of a monthly index.
pub type EgdZone = Zone<Egd, Share<Daily>, Toll<Share<Monthly>>, Toll<Share<Monthly>>>;

// The zone with daily highs from a starting day on and a monthly index from January 2024 on; refused if the starting day
// is no day or a list is too long.
pub fn egd_zone(heap: Global, start: u32, highs: &[u32], index: &[u32]) -> Result<EgdZone, NotMade>
    ensures means { IfOk result (λ z. ⟦<EgdZone as RateZone>⟧.means z ≡ egd_means start highs.now index.now) }
    ensures range { IfOk result (λ z. egd_sources start highs.now index.now ≡ true) }
    ensures refused { IfErr result (EgdZoneUnmade start highs.now index.now) }
{
    let overrun = egd_overrun(start, highs.to_vec(heap)?)?;
    let shortage = egd_shortage(index.to_vec(heap)?)?;
    let excess = egd_excess(index.to_vec(heap)?)?;
    Ok(Zone {
        rule: Egd,
        overrun,
        shortage,
        excess,
    })
}
