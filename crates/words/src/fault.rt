// Why calls were not written.
ghost use Rattle.std.specs.Prelude.{◌≡◌};
ghost use Rattle.words.specs.Lists.{unwritten_refusal};
ghost use Rattle.words.specs.declared.fault.Unwritten.TheVariants.{NoMemory};

use calls::Refusal;
use std::alloc::AllocError;
use std::error::Error;
use std::fmt;

#[derive(Clone, Copy, Debug, PartialEq, Eq)]
pub enum Unwritten {
    // a figure does not fit its word, or the words would be more than a journal has
    OutOfRange,
    NoMemory,
}

impl Unwritten {
    // The refusal that it stands for; want of memory is none.
    pub fn refusal(&self) -> Option<Refusal>
        ensures { result ≡ unwritten_refusal self.now }
    {
        match self {
            Unwritten::OutOfRange => Some(Refusal::OutOfRange),
            Unwritten::NoMemory => None,
        }
    }
}

impl From<AllocError> for Unwritten {
    ghost from_gives = { λ _ r. r ≡ NoMemory };

    fn from(_e: AllocError) -> Unwritten {
        Unwritten::NoMemory
    }
}

impl fmt::Display for Unwritten {
    ghost use Rattle.std.specs.Prelude.{Some};
    ghost use Rattle.words.specs.Lists.{unwritten_text};

    ghost output = { λ u. Some (unwritten_text u) };

    fn fmt<W: fmt::Write>(&self, f: &mut fmt::Formatter<W>) -> fmt::Result {
        f.write_str(match self {
            Unwritten::OutOfRange => "a figure or the number of words is out of range",
            Unwritten::NoMemory => "out of memory",
        })
    }
}

impl Error for Unwritten {}
