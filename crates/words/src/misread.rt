// A word that is wrong, unknown, missing or left over.
ghost use Rattle.std.specs.Prelude.{◌≡◌};
ghost use Rattle.words.specs.Misreads.{misread_refusal};

use calls::Refusal;
use std::error::Error;
use std::fmt;

// Where it stands, or is missing.
#[derive(Clone, Copy, Debug, PartialEq, Eq)]
pub struct Misread {
    pub place: usize,
}

// The refusal that it stands for.
impl From<Misread> for Refusal {
    ghost from_gives = { λ m r. r ≡ misread_refusal m };

    fn from(_misread: Misread) -> Refusal {
        Refusal::BadWord
    }
}

impl fmt::Display for Misread {
    ghost use Rattle.std.specs.Prelude.{Some};
    ghost use Rattle.words.specs.Misreads.{misread_text};

    ghost output = { λ m. Some (misread_text m) };

    fn fmt<W: fmt::Write>(&self, f: &mut fmt::Formatter<W>) -> fmt::Result {
        write!(
            f,
            "word {} is wrong, unknown, missing or left over",
            self.place
        )
    }
}

impl Error for Misread {}
