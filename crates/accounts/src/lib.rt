// The calls on a ledger's accounts: day, open, post and statement, each in its file, over the tables.
#![tactic(auto)]

pub mod day;
pub mod open;
pub mod post;
pub mod statement;
