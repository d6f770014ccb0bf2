// A term: its contract, and how far it is posted. Its ranges are in its type.
ghost use Rattle.std.specs.Prelude.{◌≡◌, ◌+◌, ◌<◌, ◌≤◌};
ghost use Rattle.balancing.specs.Limits.{mdv_limit, term_days};
ghost use Rattle.book.specs.Accounts.{dated};
ghost use Rattle.book.specs.Limits.{pool_limit, term_ends};

use book::Contract;
use calls::Status;

#[derive(Clone, Copy, Debug, PartialEq, Eq)]
pub struct Term {
    pub contract: Contract,
    pub next: u32,
    ghost pool_from: { 1 ≤ contract.pool },
    ghost pool_to: { contract.pool ≤ pool_limit },
    ghost mdv_from: { 1 ≤ contract.mdv },
    ghost mdv_to: { contract.mdv ≤ mdv_limit },
    ghost starts: { 1 ≤ contract.first },
    ghost forward: { contract.first ≤ contract.last },
    ghost days: { contract.last < contract.first + term_days },
    ghost ends: { contract.last ≤ term_ends },
    ghost next_from: { contract.first ≤ next },
    ghost next_to: { next ≤ contract.last + 1 },
}

impl Term {
    // Waiting before the first day, active through the last, expired after.
    pub fn status(&self, day: u32) -> Status
        ensures { result ≡ dated day self.now.contract }
    {
        if day < self.contract.first {
            Status::Waiting
        } else if day <= self.contract.last {
            Status::Active
        } else {
            Status::Expired
        }
    }
}
