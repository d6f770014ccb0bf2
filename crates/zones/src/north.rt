// The northern zone: no balance is carried, and one reference price is the price of all three sources.
ghost use Rattle.std.specs.Prelude.{◌≡◌, is_ok, IfOk, nat_le};
ghost use Rattle.prices.specs.Limits.{price_limit};
ghost use Rattle.zones.specs.Ledgers.{north_means};

use crate::rate_zone::RateZone;
use crate::sources::north_price;
use crate::zone::Zone;
use balancing::North;
use prices::{OutOfRange, Reference};

// A zone of North's rule and one reference price for each of the three sources.
pub type NorthZone = Zone<North, Reference, Reference, Reference>;

// The northern zone at a reference price, refused above 10,000,000.
pub fn north_zone(price: u32) -> Result<NorthZone, OutOfRange>
    ensures test { is_ok result ≡ nat_le price price_limit }
    ensures means { IfOk result (λ z. ⟦<NorthZone as RateZone>⟧.means z ≡ north_means price) }
{
    let source = north_price(price)?;
    Ok(Zone {
        rule: North,
        overrun: source,
        shortage: source,
        excess: source,
    })
}
