// Why a zone or a ledger was not made.
ghost use Rattle.std.specs.Prelude.{◌≡◌};
ghost use Rattle.calls.specs.declared.refusal.Refusal.TheVariants.{OutOfRange};
ghost use Rattle.zones.specs.declared.not_made.NotMade.TheVariants.{Refused, NoMemory};

use calls::Refusal;
use prices::OutOfRange;
use std::alloc::AllocError;
use std::error::Error;
use std::fmt;

// Kept: the new form is no plainer: each of the three errors with `NoMemory` has reasons of its own, and its text by contract.
#[derive(Clone, Copy, Debug, PartialEq, Eq)]
pub enum NotMade {
    Refused(Refusal),
    NoMemory,
}

impl From<AllocError> for NotMade {
    ghost from_gives = { λ _ r. r ≡ NoMemory };

    fn from(_e: AllocError) -> NotMade {
        NotMade::NoMemory
    }
}

impl From<OutOfRange> for NotMade {
    ghost from_gives = { λ _ r. r ≡ Refused OutOfRange };

    fn from(_e: OutOfRange) -> NotMade {
        NotMade::Refused(Refusal::OutOfRange)
    }
}

impl fmt::Display for NotMade {
    ghost use Rattle.std.specs.Prelude.{Some};
    ghost use Rattle.zones.specs.Unmade.{not_made_text};

    ghost output = { λ e. Some (not_made_text e) };

    fn fmt<W: fmt::Write>(&self, f: &mut fmt::Formatter<W>) -> fmt::Result {
        match self {
            NotMade::Refused(refusal) => write!(f, "{refusal}"),
            NotMade::NoMemory => f.write_str("no memory for the ledger"),
        }
    }
}

impl Error for NotMade {}
