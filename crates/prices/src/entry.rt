// An entry of a list of prices.
ghost use Rattle.std.specs.Prelude.{◌≡◌};
ghost use Rattle.prices.specs.Ends.{entry_at};

use crate::limits::PRICE_LIMIT;

// The entry at an index; one above 10,000,000 or past the list is missing.
pub(crate) fn entry(prices: &[u32], index: u32) -> Option<u32>
    ensures { result ≡ entry_at prices.now index }
{
    // Kept: tried; with `get`, `copied` and `filter` a mean of a year's daily prices takes half as long again.
    let index = index as usize;
    if index >= prices.len() {
        return None;
    }
    let price = prices[index];
    if price > PRICE_LIMIT {
        return None;
    }
    Some(price)
}
