// Words in bytes: little-endian, four bytes a word.
#![tactic(auto)]

mod packing;

pub use packing::{bytes_of, words_in};
