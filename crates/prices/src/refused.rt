// What a maker refuses.
ghost use Rattle.std.specs.Prelude.{Some, codes};

use std::error::Error;
use std::fmt;

// A figure outside its range: refusal 5.
#[derive(Clone, Copy, Debug, PartialEq, Eq)]
pub struct OutOfRange;

// What is written of a refused figure.
impl fmt::Display for OutOfRange {
    ghost output = { λ _. Some (codes "a figure is out of its range") };

    fn fmt<W: fmt::Write>(&self, f: &mut fmt::Formatter<W>) -> fmt::Result {
        f.write_str("a figure is out of its range")
    }
}

impl Error for OutOfRange {}
