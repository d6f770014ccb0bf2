// The tables of a ledger: its terms with their gas and their charge lines, finding and adding a term, and booking.
#![tactic(auto)]

mod adding;
mod booking;
mod finding;
mod holding;
mod making;
mod tables;
mod term;

pub use booking::enter;
pub use holding::Holding;
pub use tables::Tables;
pub use term::Term;
