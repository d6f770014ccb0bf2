// A term's status, with its number.
ghost use Rattle.std.specs.Prelude.{◌≡◌, Some, IfErr};
ghost use Rattle.std.specs.Result.{result_ok};
ghost use Rattle.calls.specs.Statuses.{status_number, status_at, status_name};

use crate::numbers::UnknownNumber;
use std::fmt;

#[derive(Clone, Copy, Debug, PartialEq, Eq)]
pub enum Status {
    Waiting = 0,
    Active = 1,
    Expired = 2,
}

impl From<Status> for u32 {
    ghost from_gives = { λ s n. n ≡ status_number s };

    fn from(status: Status) -> u32 {
        status as u32
    }
}

impl TryFrom<u32> for Status {
    type Error = UnknownNumber;

    ghost try_from_gives = { λ n r. (result_ok r ≡ status_at n) × IfErr r (λ e. e.0 ≡ n) };

    fn try_from(number: u32) -> Result<Status, UnknownNumber> {
        match number {
            0 => Ok(Status::Waiting),
            1 => Ok(Status::Active),
            2 => Ok(Status::Expired),
            _ => Err(UnknownNumber(number)),
        }
    }
}

impl fmt::Display for Status {
    ghost output = { λ s. Some (status_name s) };

    fn fmt<W: fmt::Write>(&self, f: &mut fmt::Formatter<W>) -> fmt::Result {
        f.write_str(match self {
            Status::Waiting => "waiting",
            Status::Active => "active",
            Status::Expired => "expired",
        })
    }
}
