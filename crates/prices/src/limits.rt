// The limits of prices and of tolls.

// Ten dollars for a m³, in micros.
pub const PRICE_LIMIT: u32 = 10_000_000;

// A toll in micros for a m³, above 0 or below it.
pub const TOLL_LIMIT: i32 = 1_000_000;
