// The price sources of the zones: each is made by one call, from its figures.
ghost use Rattle.std.specs.Prelude.{◌≡◌, ◌&&◌, is_ok, IfOk, vec_len, nat_le};
ghost use Rattle.prices.specs.Ends.{is_daily, is_monthly, monthly_quote};
ghost use Rattle.prices.specs.Layers.{is_percent, are_tolls, shared, tolled};
ghost use Rattle.prices.specs.Limits.{price_limit};
ghost use Rattle.prices.specs.Sources.{reference_means, daily_means, monthly_means, share_means, toll_means};
ghost use Rattle.zones.specs.Sources.{overrun_quote, shortage_quote, excess_quote, north_quote};

use prices::{Daily, Monthly, OutOfRange, Reference, Share, Toll, Tolls};

const TOLL_A: i32 = 58_071;

const TOLL_D: i32 = 9_420;

// EGD's overrun: 150 per cent of the daily highs from a starting day on.
pub fn egd_overrun(start: u32, highs: Vec<u32>) -> Result<Share<Daily>, OutOfRange>
    ensures test { is_ok result ≡ is_daily start (vec_len highs) }
    ensures quote { IfOk result (λ s. share_means daily_means s ≡ overrun_quote start highs.items) }
{
    Share::new(150, Daily::new(start, highs)?)
}

// Tolls over a share of the monthly index, in per cent.
fn index_price(
    percent: u32,
    tolls: Tolls,
    index: Vec<u32>,
) -> Result<Toll<Share<Monthly>>, OutOfRange>
    ensures test { is_ok result ≡ (are_tolls tolls && (is_percent percent && is_monthly (vec_len index))) }
    ensures quote { IfOk result (λ s.
        toll_means (share_means monthly_means) s ≡ tolled tolls (shared percent (monthly_quote index.items))) }
{
    Toll::new(tolls, Share::new(percent, Monthly::new(index)?)?)
}

// EGD's shortage: tolls over 120 per cent of the monthly index.
pub fn egd_shortage(index: Vec<u32>) -> Result<Toll<Share<Monthly>>, OutOfRange>
    ensures test { is_ok result ≡ is_monthly (vec_len index) }
    ensures quote { IfOk result (λ s. toll_means (share_means monthly_means) s ≡ shortage_quote index.items) }
{
    let tolls = Tolls {
        western: 0,
        dawn: TOLL_A - TOLL_D,
        ontario: TOLL_A,
    };
    index_price(120, tolls, index)
}

// EGD's excess: tolls over 80 per cent of the monthly index.
pub fn egd_excess(index: Vec<u32>) -> Result<Toll<Share<Monthly>>, OutOfRange>
    ensures test { is_ok result ≡ is_monthly (vec_len index) }
    ensures quote { IfOk result (λ s. toll_means (share_means monthly_means) s ≡ excess_quote index.items) }
{
    let tolls = Tolls {
        western: -TOLL_A,
        dawn: -TOLL_D,
        ontario: 0,
    };
    index_price(80, tolls, index)
}

// North's overrun, shortage and excess: its reference price.
pub fn north_price(price: u32) -> Result<Reference, OutOfRange>
    ensures test { is_ok result ≡ nat_le price price_limit }
    ensures quote { IfOk result (λ s. reference_means s ≡ north_quote price) }
{
    Reference::new(price)
}
