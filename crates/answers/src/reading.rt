// Whole words: answers read to the end, beside their calls.
ghost use Rattle.answers.specs.Answers.{read_answers};
ghost use Rattle.words.specs.Ends.{ToEnd};

use crate::decoded::answer;
use calls::{Answer, Call};
use std::alloc::Global;
use words::{Misread, Reader, Unread};

// The answers to the calls, with no word left over, or the place of the stop.
pub fn read_answers(heap: Global, calls: &[Call], words: &[u32]) -> Result<Vec<Answer>, Unread>
    ensures { ToEnd (read_answers calls.now words.now) result }
{
    let mut reader = Reader::new(words);
    let mut answers = Vec::new(heap);
    for call in calls {
        answers.push(answer(&mut reader, call)?)?;
    }
    if !reader.is_done() {
        return Err(Unread::Stop(Misread {
            place: reader.place,
        }));
    }
    Ok(answers)
}
