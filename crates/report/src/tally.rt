// Counting the refused calls of a run.
ghost use Rattle.std.specs.Prelude.{◌≡◌};
ghost use Rattle.report.specs.Tally.{refusals};

use crate::entry::Entry;
use calls::Answer;

pub fn refusals_in(entries: &[Entry]) -> usize
    ensures { result ≡ refusals entries.now }
{
    entries
        .iter()
        .filter(|entry| matches!(entry.answer, Answer::Refused(_)))
        .count()
}
