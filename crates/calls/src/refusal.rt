// The refusals: each with its number and its rule's sentence, in one table.
ghost use Rattle.std.specs.Prelude.{◌≡◌, Some};
ghost use Rattle.calls.specs.Refusals.{number_of, sentence_of, refusal_text, lack_of, refusal_at};
ghost use Rattle.calls.specs.declared.refusal.Refusal.TheVariants.{Lacking};
ghost use Rattle.calls.specs.Refusals.{gas_refusal, charge_refusal};

use amounts::{CHARGE_LIMIT, Fault, GAS_LIMIT};
use prices::Lack;
use std::error::Error;
use std::fmt;

#[derive(Clone, Copy, Debug, PartialEq, Eq)]
pub enum Refusal {
    BadWord,
    LastDay,
    NoTerm,
    WrongStatus,
    OutOfRange,
    Full,
    Overlap,
    Untimely,
    GasLimit,
    ChargeLimit,
    Lacking(Lack),
    NoRoom,
}

// A refusal's number and its rule's sentence.
#[derive(Clone, Copy, Debug)]
pub struct Rule {
    pub number: u32,
    pub sentence: &'static str,
}

fn stated(number: u32, sentence: &'static str) -> Rule
    ensures number { result.number ≡ number }
    ensures sentence { result.sentence.now ≡ sentence.now }
{
    Rule { number, sentence }
}

impl Refusal {
    // The refusal of a number, if there is one; the day is of use to a lacking price alone.
    // Kept: the new form is no plainer: TryFrom would take the two figures as a pair, without their names.
    pub fn from_number(number: u32, day: u32) -> Option<Refusal>
        ensures { result ≡ refusal_at number day }
    {
        match number {
            1 => Some(Refusal::BadWord),
            2 => Some(Refusal::LastDay),
            3 => Some(Refusal::NoTerm),
            4 => Some(Refusal::WrongStatus),
            5 => Some(Refusal::OutOfRange),
            6 => Some(Refusal::Full),
            7 => Some(Refusal::Overlap),
            8 => Some(Refusal::Untimely),
            9 => Some(Refusal::GasLimit),
            10 => Some(Refusal::ChargeLimit),
            11 => Some(Refusal::Lacking(Lack { day })),
            19 => Some(Refusal::NoRoom),
            _ => None,
        }
    }

    // The rule that it is given by.
    pub fn rule(&self) -> Rule
        ensures number { result.number ≡ number_of self.now }
        ensures sentence { result.sentence.now ≡ sentence_of self.now }
    {
        match self {
            Refusal::BadWord => stated(1, "a word is of the wrong kind, unknown or missing"),
            Refusal::LastDay => stated(2, "the ledger stands at its last day"),
            Refusal::NoTerm => stated(3, "there is no such term"),
            Refusal::WrongStatus => stated(4, "the term's status does not allow it"),
            Refusal::OutOfRange => stated(5, "a figure is out of its range"),
            Refusal::Full => stated(6, "the table is full"),
            Refusal::Overlap => stated(7, "a term of the pool shares a day with it"),
            Refusal::Untimely => stated(8, "the day does not allow it yet"),
            Refusal::GasLimit => stated(9, "the balance would pass 200,000,000 m³"),
            Refusal::ChargeLimit => stated(10, "a charge line would pass 100,000,000 dollars"),
            Refusal::Lacking(_) => stated(11, "a price is lacking"),
            Refusal::NoRoom => stated(19, "its answers do not fit the answer memory"),
        }
    }

    // The lack of a price, where that is why.
    pub fn lack(&self) -> Option<Lack>
        ensures { result ≡ lack_of self.now }
    {
        match self {
            Refusal::Lacking(lack) => Some(*lack),
            _ => None,
        }
    }
}

// A refusal is written as its number and its sentence.
impl fmt::Display for Refusal {
    ghost output = { λ r. Some (refusal_text r) };

    fn fmt<W: fmt::Write>(&self, f: &mut fmt::Formatter<W>) -> fmt::Result {
        let Rule { number, sentence } = self.rule();
        write!(f, "{number}: {sentence}")
    }
}

impl Error for Refusal {}

// Kept: the new form is no plainer: the two conversions differ in the refusal, which one for both would have to be told.
impl From<Fault<GAS_LIMIT>> for Refusal {
    ghost from_gives = { λ e r. r ≡ gas_refusal e };

    fn from(e: Fault<GAS_LIMIT>) -> Refusal {
        match e {
            Fault::NoPlace => Refusal::NoTerm,
            Fault::PastLimit => Refusal::GasLimit,
        }
    }
}

impl From<Fault<CHARGE_LIMIT>> for Refusal {
    ghost from_gives = { λ e r. r ≡ charge_refusal e };

    fn from(e: Fault<CHARGE_LIMIT>) -> Refusal {
        match e {
            Fault::NoPlace => Refusal::NoTerm,
            Fault::PastLimit => Refusal::ChargeLimit,
        }
    }
}

impl From<Lack> for Refusal {
    ghost from_gives = { λ l r. r ≡ Lacking l };

    fn from(lack: Lack) -> Refusal {
        Refusal::Lacking(lack)
    }
}
