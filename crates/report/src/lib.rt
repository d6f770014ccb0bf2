// A run for people to read: each call with its date and its answer, and how the run ended.
#![tactic(auto)]

mod entry;
mod reading;
mod tally;
mod text;

pub use entry::Entry;
pub use reading::{Report, read_report};
pub use tally::refusals_in;
