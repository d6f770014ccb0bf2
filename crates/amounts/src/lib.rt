// Amounts: rows of whole numbers under the limit of their kind, and how they are booked.
#![tactic(auto)]

mod limits;
mod row;
mod sum;
mod table;

pub use limits::{CHARGE_LIMIT, GAS_LIMIT};
pub use row::{Charges, Fault, Gas, Row};
pub use table::book;
