// The limits of the book's figures and of its table.

// Pools are numbered from 1.
pub const POOL_LIMIT: u32 = 99_999;

// No term runs past this day.
pub const TERM_ENDS: u32 = 3_400;

// A volume posted for a day, in m³.
pub const POSTED_LIMIT: u32 = 10_000_000;

// A point's suspension allowance for a day, in m³.
pub const ALLOWANCE_LIMIT: u32 = 10_000_000;

// The terms of a ledger.
pub const TERM_PLACES: usize = 64;
