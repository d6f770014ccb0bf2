// The limits of the two kinds of amount.

// Gas, in m³, above 0 or below it.
pub const GAS_LIMIT: u64 = 200_000_000;

// A charge line, in micros, owed or owing.
pub const CHARGE_LIMIT: u64 = 100_000_000_000_000;
