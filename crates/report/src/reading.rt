// The entries of a run, read off the words that it read and the words that it wrote.
ghost use Rattle.std.specs.Prelude.{◌≡◌, IfOk};
ghost use Rattle.report.specs.Shown.{day_after, Shown};

use crate::entry::Entry;
use answers::answer;
use calls::{Answer, Call};
use journal::Stop;
use std::alloc::{AllocError, Global};
use words::Reader;

#[derive(Debug, PartialEq, Eq, Drop)]
pub struct Report {
    pub entries: Vec<Entry>,
    pub stop: Option<Stop>,
}

// The day after a call: a done call day answers it.
fn day_after(day: u32, call: &Call, answer: &Answer) -> u32
    ensures { result ≡ day_after day call.now answer.now }
{
    match (call, answer) {
        (Call::Day, Answer::Done(day)) => *day,
        _ => day,
    }
}

// The entries for the answers that there are; the run stopped as it says.
pub fn read_report(
    heap: Global,
    journal: &[u32],
    answers: &[u32],
    stop: Option<Stop>,
) -> Result<Report, AllocError>
    ensures { IfOk result (λ p. Shown journal.now answers.now p.entries.items × (p.stop ≡ stop)) }
{
    let mut entries = Vec::new(heap);
    let mut asked = Reader::new(journal);
    let mut replies = Reader::new(answers);
    let mut day = 1;
    'calls: while let Ok(call) = asked.call() {
        let Ok(answer) = answer(&mut replies, &call) else {
            break;
        };
        entries.push(Entry { day, call, answer })?;
        day = day_after(day, &call, &answer);
    }
    Ok(Report { entries, stop })
}
