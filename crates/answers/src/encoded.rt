// Answers as words.
ghost use Rattle.std.specs.Prelude.{◌≡◌, ◌+◌, ◌%◌, ◌<◌, [], ◌∷◌, ◌++◌};
ghost use Rattle.answers.specs.Answers.{answer_count};
ghost use Rattle.words.specs.Kinds.{word};
ghost use Rattle.words.specs.WordRows.{listed};
ghost use Rattle.answers.specs.Writing.{signed_word, part_word, line_words, lines_words, answer_words};
ghost use Rattle.words.specs.declared.kind.Kind.TheVariants.{Figure};
ghost use Rattle.calls.specs.declared.call.Answer.TheVariants.{Stated};

use crate::row::Encoded;
use calls::{Answer, StatedTerm};
use words::{Kind, VALUE_COUNT, word};

// An answer's words: two, or eighteen for a statement.
pub fn encode(answer: &Answer) -> Encoded
    ensures words { listed result ≡ answer_words answer.now }
    ensures count { result.len ≡ answer_count answer.now }
{
    match answer {
        Answer::Done(value) => two(Kind::Done, *value, 0),
        Answer::Stated(stated) => statement(stated),
        Answer::Refused(refusal) => {
            let day = refusal.lack().map_or(0, |lack| lack.day);
            two(Kind::Refused, refusal.rule().number, day)
        }
    }
}

// One word more, behind the others.
fn push(words: &mut Encoded, word: u32)
    requires { words.old.len < 18 }
    ensures words { listed words.new ≡ listed words.old ++ word ∷ [] }
    ensures len { words.new.len ≡ words.old.len + 1 }
{
    words.words[words.len] = word;
    words.len += 1;
}

fn two(kind: Kind, value: u32, figure: u32) -> Encoded
    ensures words { listed result ≡ word kind value ∷ word Figure figure ∷ [] }
    ensures len { result.len ≡ 2 }
{
    let mut words = Encoded::new();
    push(&mut words, word(kind, value));
    push(&mut words, word(Kind::Figure, figure));
    words
}

fn statement(stated: &StatedTerm) -> Encoded
    ensures words { listed result ≡ answer_words (Stated stated.now) }
    ensures len { result.len ≡ 18 }
{
    let mut words = two(Kind::Done, 0, 0);
    push(&mut words, word(Kind::Number, stated.term));
    push(&mut words, word(Kind::Number, stated.pool));
    push(&mut words, word(Kind::Status, u32::from(stated.status)));
    push(&mut words, word(Kind::Day, stated.next));
    push(&mut words, signed_word(stated.balance));
    push(&mut words, word(Kind::Volume, stated.on_offer));
    push_lines(&mut words, &stated.lines);
    words
}

// The lines go behind the first eight words.
fn push_lines(words: &mut Encoded, lines: &[i64; 5])
    requires { words.old.len ≡ 8 }
    ensures words { listed words.new ≡ listed words.old ++ lines_words lines.now }
    ensures len { words.new.len ≡ 18 }
{
    for line in lines {
        let (whole, rest) = line_words(*line);
        push(words, whole);
        push(words, rest);
    }
}

// A line in two words: its size over 100,000,000, and the rest.
fn line_words(line: i64) -> (u32, u32)
    ensures { result.0 ∷ result.1 ∷ [] ≡ line_words line }
{
    let size = line.unsigned_abs();
    (
        part_word(line, size / 100_000_000),
        part_word(line, size % 100_000_000),
    )
}

// A signed figure: 0 or more by one kind, below 0 by its size by another.
fn signed_word(figure: i64) -> u32
    ensures { result ≡ signed_word figure }
{
    part_word(figure, figure.unsigned_abs())
}

// A part of a line, with the line's sign.
fn part_word(line: i64, part: u64) -> u32
    ensures { result ≡ part_word line part }
{
    if line < 0 && part > 0 {
        word(Kind::Below, low(part))
    } else {
        word(Kind::Figure, low(part))
    }
}

fn low(size: u64) -> u32
    ensures { result ≡ size % 268435456 }
{
    (size % u64::from(VALUE_COUNT)) as u32
}
