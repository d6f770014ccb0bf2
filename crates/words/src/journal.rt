// Whole words: calls read to the end.
ghost use Rattle.words.specs.Ends.{ToEnd};
ghost use Rattle.words.specs.Journal.{read_calls};

use crate::reader::Reader;
use crate::unread::Unread;
use calls::Call;
use std::alloc::Global;

// The calls of the words, read to the end, or the place of the stop.
pub fn read_calls(heap: Global, words: &[u32]) -> Result<Vec<Call>, Unread>
    ensures { ToEnd (read_calls words.now) result }
{
    let mut reader = Reader::new(words);
    let mut calls = Vec::new(heap);
    while !reader.is_done() {
        calls.push(reader.call()?)?;
    }
    Ok(calls)
}
