// Running a journal: words are read, calls are made, and their answers are written.
#![tactic(auto)]

mod laws;
mod making;
mod memory;
mod ran;
mod running;
mod stop;

pub use laws::answers_stand;
pub use making::make;
pub use ran::Ran;
pub use running::run;
pub use stop::Stop;
