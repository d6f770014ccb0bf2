// The plain book's entries as the tables hold them, and its limits; the book itself, a call to a file, is in specs/.
#![tactic(auto)]

mod allowances;
mod contract;
mod limits;

pub use allowances::{Allowances, allowed};
pub use contract::Contract;
pub use limits::{ALLOWANCE_LIMIT, POOL_LIMIT, POSTED_LIMIT, TERM_ENDS, TERM_PLACES};
