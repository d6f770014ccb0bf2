// A call's words.
ghost use Rattle.std.specs.Prelude.{◌≡◌, ◌≤◌, [], length};
ghost use Rattle.std.specs.Option.{unwrap_or};
ghost use Rattle.words.specs.Shapes.{shape_of, call_number};
ghost use Rattle.words.specs.WordRows.{listed};
ghost use Rattle.words.specs.Writing.{call_words, fit};

use crate::figures::{figures_of, number_of};
use crate::kind::Kind;
use crate::limits::VALUE_COUNT;
use crate::packed::word;
use crate::row::Written;
use crate::table::shape;
use calls::Call;

// Whether every figure fits 28 bits.
pub fn fits(figures: &[u32]) -> bool
    ensures { result ≡ fit figures.now }
{
    figures.iter().all(|figure| *figure < VALUE_COUNT)
}

// The call word, and then the figures in the order of the call's shape.
pub fn words_of(call: &Call) -> Written
    ensures { listed result ≡ call_words call.now }
{
    let figures = figures_of(call);
    let mut words = Written::new();
    words.push(word(Kind::Call, number_of(call)));
    for (kind, figure) in kinds_of(call).iter().zip(figures.iter()) {
        words.push(word(*kind, *figure));
    }
    words
}

fn kinds_of(call: &Call) -> &'static [Kind]
    ensures row { result.now ≡ unwrap_or (shape_of (call_number call.now)) [] }
    ensures short { length result.now ≤ 8 }
{
    shape(number_of(call)).unwrap_or(&[])
}
