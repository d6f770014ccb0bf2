// Writing calls as words.
ghost use Rattle.std.specs.Prelude.{◌≡◌};
ghost use Rattle.words.specs.Lists.{Put, WrittenAll};

use crate::fault::Unwritten;
use crate::figures::figures_of;
use crate::written::{fits, words_of};
use calls::Call;
use std::alloc::Global;

// A journal has at most this many words.
const ROOM: usize = 8192;

// Writes a call behind what is there; a call that is not written leaves the words as they were.
pub fn write_call(call: &Call, out: &mut Vec<u32>) -> Result<(), Unwritten>
    ensures { Put call.now out.old.items result out.new.items }
{
    if !fits(&figures_of(call)) {
        return Err(Unwritten::OutOfRange);
    }
    out.extend_from_slice(&words_of(call))?;
    Ok(())
}

// The words of the calls, one after the other, or none.
pub fn write_calls(heap: Global, calls: &[Call]) -> Result<Vec<u32>, Unwritten>
    ensures { WrittenAll calls.now result }
{
    let mut out = Vec::new(heap);
    for call in calls {
        write_call(call, &mut out)?;
        if out.len() > ROOM {
            return Err(Unwritten::OutOfRange);
        }
    }
    Ok(out)
}
