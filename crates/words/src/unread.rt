// Why words were not read to the end.
ghost use Rattle.std.specs.Prelude.{◌≡◌};
ghost use Rattle.words.specs.Misreads.{unread_refusal};
ghost use Rattle.words.specs.declared.unread.Unread.TheVariants.{Stop, NoMemory};

use crate::misread::Misread;
use calls::Refusal;
use std::alloc::AllocFailed;
use std::error::Error;
use std::fmt;

#[derive(Clone, Copy, Debug, PartialEq, Eq)]
pub enum Unread {
    // at the word that is wrong, unknown, missing or left over
    Stop(Misread),
    NoMemory,
}

impl Unread {
    // The refusal that it stands for; want of memory is none.
    pub fn refusal(&self) -> Option<Refusal>
        ensures { result ≡ unread_refusal self.now }
    {
        match self {
            Unread::Stop(misread) => Some(Refusal::from(*misread)),
            Unread::NoMemory => None,
        }
    }
}

impl From<Misread> for Unread {
    ghost from_gives = { λ m r. r ≡ Stop m };

    fn from(misread: Misread) -> Unread {
        Unread::Stop(misread)
    }
}

impl<T: Drop> From<AllocFailed<T>> for Unread {
    ghost from_gives = { λ _ r. r ≡ NoMemory };

    fn from(_e: AllocFailed<T>) -> Unread {
        Unread::NoMemory
    }
}

impl fmt::Display for Unread {
    ghost use Rattle.std.specs.Prelude.{Some};
    ghost use Rattle.words.specs.Misreads.{unread_text};

    ghost output = { λ u. Some (unread_text u) };

    fn fmt<W: fmt::Write>(&self, f: &mut fmt::Formatter<W>) -> fmt::Result {
        match self {
            Unread::Stop(misread) => write!(f, "{misread}"),
            Unread::NoMemory => f.write_str("out of memory"),
        }
    }
}

impl Error for Unread {}
