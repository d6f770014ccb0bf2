// The limits of a term's figures.

// The daily contracted volume (MDV), in m³.
pub const MDV_LIMIT: u32 = 500_000;

// The most days that a term runs.
pub const TERM_DAYS: u32 = 366;
