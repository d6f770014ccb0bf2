// What the tests share: lists of prices.
use prices::{Daily, Monthly};
use std::alloc::{AllocError, Global};
use std::test::Fail;

// The list of the first n multiples of a step, above a base.
pub fn rising(heap: Global, base: u32, step: u32, n: u32) -> Result<Vec<u32>, AllocError> {
    (0..n)
        .map(|i| base.wrapping_add(step.wrapping_mul(i)))
        .collect(heap)
}

// The price of a day is 100,000 and its number.
pub fn daily(heap: Global) -> Result<Daily, Fail> {
    Ok(Daily::new(1, rising(heap, 100_001, 1, 3653)?)?)
}

// The price of a month is 1,000 times its number.
pub fn monthly(heap: Global, months: u32) -> Result<Monthly, Fail> {
    Ok(Monthly::new(rising(heap, 0, 1_000, months)?)?)
}
