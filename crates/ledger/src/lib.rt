// The ledger of banked gas accounts: making one, and applying calls to it.
#![tactic(auto)]

mod apply;
mod egd;
mod ledger;
mod making;
mod northern;

pub use egd::{EgdLedger, egd_ledger};
pub use ledger::Ledger;
pub use northern::{NorthLedger, north_ledger};
