// A northern journal from bytes to answers: what the programs do, on values.
#![tactic(auto)]

mod output;
mod price;
mod program;

pub use output::Output;
pub use price::price_of;
pub use program::{northrun, run_words};
