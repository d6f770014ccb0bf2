// The calls and their answers: what can be asked of the ledger, and the refusals with their numbers.
#![tactic(auto)]

mod arguments;
mod call;
mod numbers;
mod refusal;
mod status;

pub use arguments::{Opening, Posting};
pub use call::{Answer, Call, StatedTerm};
pub use numbers::UnknownNumber;
pub use refusal::{Refusal, Rule};
pub use status::Status;
