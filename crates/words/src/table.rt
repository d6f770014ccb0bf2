// The shape table: for each call its number, and the kinds of its arguments in their order.
ghost use Rattle.std.specs.Prelude.{◌≡◌, ◌≤◌, length, IfSome, Some, None, MatchOption};
ghost use Rattle.words.specs.Shapes.{shape_of};

use crate::kind::Kind;

// The kinds of the arguments of the call with this number, if there is such a call.
// Kept: the new form is no plainer: a call word bears the number, and an enum between would be one row more for a call.
// Kept: the new form is no plainer: that a shape has at most 8 kinds is said here, and asked by the two that write it.
pub fn shape(number: u32) -> Option<&'static [Kind]>
    ensures row { MatchOption result (shape_of number ≡ None) (λ kinds. shape_of number ≡ Some kinds.now) }
    ensures short { IfSome result (λ kinds. length kinds.now ≤ 8) }
{
    match number {
        // day
        1 => Some(&[]),
        // open: pool, point, maximum daily volume, first and last day
        2 => Some(&[
            Kind::Number,
            Kind::Point,
            Kind::Volume,
            Kind::Day,
            Kind::Day,
        ]),
        // post: term, delivered, consumed
        3 => Some(&[Kind::Number, Kind::Volume, Kind::Volume]),
        // statement: term
        10 => Some(&[Kind::Number]),
        _ => None,
    }
}
