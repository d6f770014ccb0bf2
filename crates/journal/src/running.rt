// Running a journal into a ledger.
ghost use Rattle.std.specs.Prelude.{◌≡◌, ◌≤◌, length, IfSome};
ghost use Rattle.tables.specs.View.{view};
ghost use Rattle.words.specs.Limits.{journal_words};
ghost use Rattle.journal.specs.Runs.{run, Runs, stopped_at};
ghost use Rattle.journal.specs.Trips.{Told};

use crate::making::make;
use crate::memory::{answer_len, put};
use crate::ran::Ran;
use crate::stop::Stop;
use calls::Refusal;
use ledger::Ledger;
use words::{JOURNAL_WORDS, Reader};
use zones::RateZone;

// Reads the words to their end or to a stop, makes each call that is read, and writes the answers.
// Kept: the C interface needs it: it lends the answer memory, and learns how much of it is written.
pub fn run<Z: RateZone>(ledger: &mut Ledger<Z>, words: &[u32], answers: &mut [u32]) -> Ran
    ensures ran { Runs
        (run (Z.means ledger.old.zone) words.now (length answers.old) (view ledger.old.tables))
        result answers.old answers.new (view ledger.new.tables) }
    ensures told { Told
        (Z.means ledger.old.zone) words.now (length answers.old) (view ledger.old.tables)
        result answers.new (view ledger.new.tables) }
    ensures near { IfSome result.stop (λ s. s.place ≤ journal_words) }
    ensures zone { ledger.new.zone ≡ ledger.old.zone }
{
    if words.len() > JOURNAL_WORDS {
        return stopped(0, Refusal::OutOfRange, 0);
    }
    let mut written = 0;
    let mut reader = Reader::new(words);
    'calls: while !reader.is_done() {
        let place = reader.place;
        // Kept: the new form is no plainer: by `?` the count of what was written would not come back with the stop.
        let call = match reader.call() {
            Ok(call) => call,
            Err(misread) => return stopped(written, Refusal::BadWord, misread.place),
        };
        if answers.len() - written < answer_len(ledger, &call) {
            return stopped(written, Refusal::NoRoom, place);
        }
        let answer = make(ledger, call);
        put(answers, written, &answer);
        written += answer.len();
    }
    Ran {
        written,
        stop: None,
    }
}

// A run that stopped at a place, with so many words written.
fn stopped(written: usize, refusal: Refusal, place: usize) -> Ran
    ensures { result ≡ stopped_at written refusal place }
{
    Ran {
        written,
        stop: Some(Stop { refusal, place }),
    }
}
