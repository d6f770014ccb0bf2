// Reading answers off lent words.
ghost use Rattle.std.specs.Prelude.{◌≡◌, ◌^◌, ◌<◌, ◌==◌, not, drop, slice_index, position};
ghost use Rattle.std.specs.List.{zip};
ghost use Rattle.std.specs.Option.{unwrap_or};
ghost use Rattle.calls.specs.Statuses.{status_at};
ghost use Rattle.calls.specs.declared.status.Status.TheVariants.{Waiting};
ghost use Rattle.words.specs.Kinds.{value_in};
ghost use Rattle.answers.specs.Answers.{Reply, answer_in, stated_in, line_in};
ghost use Rattle.answers.specs.Answers.{lines_in, signed_by, signed_in, refusal_in, differs};

use crate::encoded::encode;
use calls::{Answer, Call, Refusal, StatedTerm, Status};
use words::{Kind, Misread, Reader, figure, is_of, value_of};

// The answer to a call, read at the reader's place; or the place of the first word that is wrong or missing, and then
// the reader stays where it is.
pub fn answer(reader: &mut Reader, call: &Call) -> Result<Answer, Misread>
    ensures read { Reply call.now reader.old.words.now reader.old.place result reader.new.place }
    ensures same { reader.new.words.now ≡ reader.old.words.now }
{
    let rest = rest(reader);
    let answer = answer_in(call, rest);
    let words = encode(&answer);
    if let Some(off) = difference(&words, rest) {
        return Err(Misread {
            place: reader.place + off,
        });
    }
    reader.place += words.len();
    Ok(answer)
}

// The words from the reader's place on.
fn rest<'a>(reader: &Reader<'a>) -> &'a [u32]
    ensures { result.now ≡ drop reader.now.place reader.now.words.now }
{
    reader.words.get(reader.place..).unwrap_or(&[])
}

// The answer to a call that the values of the words make.
fn answer_in(call: &Call, words: &[u32]) -> Answer
    ensures { result ≡ answer_in call.now words.now }
{
    if is_of(figure(words, 0), Kind::Refused) {
        return Answer::Refused(refusal_in(words));
    }
    match call {
        Call::Statement { .. } => Answer::Stated(stated_in(words)),
        _ => Answer::Done(value_at(words, 0)),
    }
}

fn refusal_in(words: &[u32]) -> Refusal
    ensures { result ≡ refusal_in words.now }
{
    Refusal::from_number(value_at(words, 0), value_at(words, 1)).unwrap_or(Refusal::BadWord)
}

fn stated_in(words: &[u32]) -> StatedTerm
    ensures { result ≡ stated_in words.now }
{
    StatedTerm {
        term: value_at(words, 2),
        pool: value_at(words, 3),
        status: status_at(words, 4),
        next: value_at(words, 5),
        balance: signed_of(figure(words, 6)),
        on_offer: value_at(words, 7),
        lines: lines_in(words),
    }
}

fn lines_in(words: &[u32]) -> [i64; 5]
    ensures { result ≡ lines_in 5 8 words.now }
{
    // Kept: tried; it did not close: of `array::from_fn` a result is known by its index, of the rule by its place.
    [
        line_of(figure(words, 8), figure(words, 9)),
        line_of(figure(words, 10), figure(words, 11)),
        line_of(figure(words, 12), figure(words, 13)),
        line_of(figure(words, 14), figure(words, 15)),
        line_of(figure(words, 16), figure(words, 17)),
    ]
}

fn value_at(words: &[u32], i: usize) -> u32
    ensures { result ≡ value_in (slice_index words.now i) }
{
    value_of(figure(words, i))
}

fn status_at(words: &[u32], i: usize) -> Status
    ensures { result ≡ unwrap_or (status_at (value_in (slice_index words.now i))) Waiting }
{
    Status::try_from(value_at(words, i)).unwrap_or(Status::Waiting)
}

fn signed_of(bits: u32) -> i64
    ensures { result ≡ signed_in bits }
{
    signed_by(is_of(bits, Kind::Below), u64::from(value_of(bits)))
}

// A line by its two words.
fn line_of(high: u32, low: u32) -> i64
    ensures { result ≡ line_in high low }
{
    let below = is_of(high, Kind::Below) || is_of(low, Kind::Below);
    let size = u64::from(value_of(high)) * 100_000_000 + u64::from(value_of(low)) % 100_000_000;
    signed_by(below, size)
}

fn signed_by(below: bool, size: u64) -> i64
    requires { size < 2 ^ 62 }
    ensures { result ≡ signed_by below size }
{
    if below { -(size as i64) } else { size as i64 }
}

// The first place where the words are not as expected, or end.
fn difference(expected: &[u32], words: &[u32]) -> Option<usize>
    ensures { result ≡ differs expected.now words.now }
{
    unlike(expected, words).or((words.len() < expected.len()).then_some(words.len()))
}

// The first place where two words beside one another are not the same.
fn unlike(expected: &[u32], words: &[u32]) -> Option<usize>
    ensures { result ≡ position (λ p. not (p.1 == p.0)) (zip expected.now words.now) }
{
    expected
        .iter()
        .zip(words)
        .position(|(want, have)| have != want)
}
