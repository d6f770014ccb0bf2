// The limits of words.

// A journal's words, and those of an answer memory that a program makes.
pub const JOURNAL_WORDS: usize = 8_192;

// A word holds this many values: 2 ^ 28.
pub const VALUE_COUNT: u32 = 0x1000_0000;
