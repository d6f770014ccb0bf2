// Answers as words, and back beside the calls that they answer.
#![tactic(auto)]

mod decoded;
mod encoded;
mod laws;
mod reading;
mod row;

pub use decoded::answer;
pub use encoded::encode;
pub use laws::answers_stand;
pub use reading::read_answers;
pub use row::Encoded;
