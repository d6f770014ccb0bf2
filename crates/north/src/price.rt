// The reference price, the first word of the input.
ghost use Rattle.std.specs.Prelude.{◌≡◌};
ghost use Rattle.north.specs.North.{price_in};

use prices::PRICE_LIMIT;
use words::{Kind, is_of, value_of};

// A word's price: a figure of 0 or more, at most 10,000,000.
pub fn price_of(word: u32) -> Option<u32>
    ensures { result ≡ price_in word }
{
    let price = value_of(word);
    (is_of(word, Kind::Figure) && price <= PRICE_LIMIT).then_some(price)
}
