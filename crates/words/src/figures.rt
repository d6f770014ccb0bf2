// A call by its number and its figures, and back.
ghost use Rattle.std.specs.Prelude.{◌≡◌, ◌≤◌, length, slice_index};
ghost use Rattle.words.specs.Reading.{call_of};
ghost use Rattle.words.specs.Shapes.{call_number, figures_of};
ghost use Rattle.words.specs.WordRows.{listed};

use crate::row::Figures;
use calls::{Call, Opening, Posting};

// The figure at a place, and 0 past the last.
// Kept: the new form is no plainer: a missing word reads as 0, and every reader of a figure wants just that.
pub fn figure(figures: &[u32], i: usize) -> u32
    ensures { result ≡ slice_index figures.now i }
{
    figures.get(i).copied().unwrap_or(0)
}

// The call of a number and its figures; a number of no call makes day.
// Kept: the new form is no plainer: a call word bears the number, as in the table of shapes.
pub fn call_of(number: u32, figures: &[u32]) -> Call
    ensures { result ≡ call_of number figures.now }
{
    match number {
        2 => Call::Open(Opening {
            pool: figure(figures, 0),
            point: figure(figures, 1),
            mdv: figure(figures, 2),
            first: figure(figures, 3),
            last: figure(figures, 4),
        }),
        3 => Call::Post(Posting {
            term: figure(figures, 0),
            delivered: figure(figures, 1),
            consumed: figure(figures, 2),
        }),
        10 => Call::Statement {
            term: figure(figures, 0),
        },
        _ => Call::Day,
    }
}

// The number that its call word bears.
// Kept: the new form is no plainer: a call word bears the number, as in the table of shapes.
pub fn number_of(call: &Call) -> u32
    ensures { result ≡ call_number call.now }
{
    match call {
        Call::Day => 1,
        Call::Open(_) => 2,
        Call::Post(_) => 3,
        Call::Statement { .. } => 10,
    }
}

pub fn figures_of(call: &Call) -> Figures
    ensures { listed result ≡ figures_of call.now }
{
    match *call {
        Call::Day => Figures::new(),
        Call::Open(o) => row(&[o.pool, o.point, o.mdv, o.first, o.last]),
        Call::Post(p) => row(&[p.term, p.delivered, p.consumed]),
        Call::Statement { term } => row(&[term]),
    }
}

// These figures in a row.
fn row(figures: &[u32]) -> Figures
    requires { length figures.now ≤ 8 }
    ensures { listed result ≡ figures.now }
{
    let mut row = Figures::new();
    for figure in figures {
        row.push(*figure);
    }
    row
}
