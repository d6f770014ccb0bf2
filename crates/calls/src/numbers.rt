// A number that names nothing.
use std::error::Error;
use std::fmt;

#[derive(Clone, Copy, Debug, PartialEq, Eq)]
pub struct UnknownNumber(pub u32);

impl fmt::Display for UnknownNumber {
    ghost use Rattle.std.specs.Prelude.{◌++◌, codes, decimal, Some};

    ghost output = { λ n. Some (codes "nothing has the number " ++ decimal n.0) };

    fn fmt<W: fmt::Write>(&self, f: &mut fmt::Formatter<W>) -> fmt::Result {
        write!(f, "nothing has the number {}", self.0)
    }
}

impl Error for UnknownNumber {}
