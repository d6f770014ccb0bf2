// A row of whole numbers of fixed length, each within the limit of its kind.
ghost use Rattle.std.specs.Prelude.{◌≡◌, ◌^◌, ◌<◌, true, length, Some};
ghost use Rattle.amounts.specs.Rows.{within};

use crate::limits::{CHARGE_LIMIT, GAS_LIMIT};
use std::error::Error;
use std::fmt;

// A row of N figures, each within LIMIT of 0.
#[derive(Clone, Copy, Debug, PartialEq, Eq)]
pub struct Row<const N: usize, const LIMIT: u64> {
    pub figures: [i64; N],
    ghost long: { length figures ≡ N },
    ghost kept: { within LIMIT figures ≡ true },
    ghost narrow: { LIMIT < 2 ^ 62 },
}

// Gas has one number.
pub type Gas = Row<1, GAS_LIMIT>;

// Charges have five, one for each line.
pub type Charges = Row<5, CHARGE_LIMIT>;

// Why an amount of a kind was not booked.
#[derive(Clone, Copy, Debug, PartialEq, Eq)]
pub enum Fault<const LIMIT: u64> {
    // the table has no such place
    NoPlace,
    // a number of the row would pass the limit
    PastLimit,
}

// What is written of a fault.
impl<const LIMIT: u64> fmt::Display for Fault<LIMIT> {
    ghost use Rattle.amounts.specs.Faults.{fault_text};

    ghost output = { λ e. Some (fault_text e) };

    fn fmt<W: fmt::Write>(&self, f: &mut fmt::Formatter<W>) -> fmt::Result {
        f.write_str(match self {
            Fault::NoPlace => "the table has no such place",
            Fault::PastLimit => "a number would pass its limit",
        })
    }
}

impl<const LIMIT: u64> Error for Fault<LIMIT> {}
