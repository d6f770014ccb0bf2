// The laws over whole runs, on the plain book alone.
#![tactic(auto)]

mod keeping;

pub use keeping::rulings_stand;
