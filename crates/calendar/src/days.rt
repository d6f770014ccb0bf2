// The days of the ledger: day 1 is 1 January 2024.

// 31 December 2033.
pub const LAST_DAY: u32 = 3_653;

// The months of these days.
pub const MONTH_COUNT: u32 = 120;
