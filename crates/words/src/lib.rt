// Journal words: calls as words and back.
#![tactic(auto)]

mod fault;
mod figures;
mod journal;
mod kind;
mod laws;
mod limits;
mod misread;
mod packed;
mod reader;
mod row;
mod table;
mod unread;
mod writer;
mod written;

pub use fault::Unwritten;
pub use figures::{call_of, figure, figures_of, number_of};
pub use journal::read_calls;
pub use kind::Kind;
pub use laws::{calls_stand, journals_stand};
pub use limits::{JOURNAL_WORDS, VALUE_COUNT};
pub use misread::Misread;
pub use packed::{is_of, value_of, word};
pub use reader::Reader;
pub use row::{Figures, WordRow};
pub use table::shape;
pub use unread::Unread;
pub use writer::{write_call, write_calls};
