// The text of a run: a line for a call, a small table for a statement, and a line for the end.
use crate::entry::Entry;
use crate::reading::Report;
use crate::tally::refusals_in;
use calendar::date_of;
use calls::{Answer, Call, Refusal, StatedTerm};
use prices::Point;
use std::fmt;

// A day as its date.
#[derive(Clone, Copy)]
struct On(pub u32);

impl fmt::Display for On {
    fn fmt<W: fmt::Write>(&self, f: &mut fmt::Formatter<W>) -> fmt::Result {
        let day = self.0;
        match date_of(day) {
            Some(date) => write!(f, "{date}"),
            None => write!(f, "day {day}"),
        }
    }
}

// Micros as dollars, to the micro.
#[derive(Clone, Copy)]
struct Dollars(pub i64);

impl fmt::Display for Dollars {
    fn fmt<W: fmt::Write>(&self, f: &mut fmt::Formatter<W>) -> fmt::Result {
        let size = self.0.unsigned_abs();
        let whole = size / 1_000_000;
        let rest = size % 1_000_000;
        if self.0 < 0 {
            write!(f, "-{whole}.{rest:06}")
        } else {
            write!(f, "{whole}.{rest:06}")
        }
    }
}

// A point of receipt by its number.
#[derive(Clone, Copy)]
struct At(pub u32);

impl fmt::Display for At {
    fn fmt<W: fmt::Write>(&self, f: &mut fmt::Formatter<W>) -> fmt::Result {
        match Point::try_from(self.0) {
            Ok(point) => write!(f, "{point}"),
            Err(_) => f.write_str("no point"),
        }
    }
}

// What was asked.
#[derive(Clone, Copy)]
struct Asked(pub Call);

impl fmt::Display for Asked {
    fn fmt<W: fmt::Write>(&self, f: &mut fmt::Formatter<W>) -> fmt::Result {
        match self.0 {
            Call::Day => write!(f, "day"),
            Call::Open(o) => {
                let (pool, mdv) = (o.pool, o.mdv);
                let (point, first, last) = (At(o.point), On(o.first), On(o.last));
                write!(
                    f,
                    "open pool {pool} at {point}, MDV {mdv} m³, {first} to {last}"
                )
            }
            Call::Post(p) => {
                let (term, delivered, consumed) = (p.term, p.delivered, p.consumed);
                write!(
                    f,
                    "post term {term}, delivered {delivered} m³, consumed {consumed} m³"
                )
            }
            Call::Statement { term } => write!(f, "statement of term {term}"),
        }
    }
}

// A done call's value.
#[derive(Clone, Copy)]
struct Done(pub Call, pub u32);

impl fmt::Display for Done {
    fn fmt<W: fmt::Write>(&self, f: &mut fmt::Formatter<W>) -> fmt::Result {
        let value = self.1;
        let day = On(value);
        match self.0 {
            Call::Day => write!(f, "done, it is {day}"),
            Call::Open(_) => write!(f, "done, term {value}"),
            Call::Post(_) => write!(f, "done for {day}"),
            Call::Statement { .. } => write!(f, "done"),
        }
    }
}

// A refusal: its number and its rule's sentence, and the day that a price is lacking for.
#[derive(Clone, Copy)]
struct Because(pub Refusal);

impl fmt::Display for Because {
    fn fmt<W: fmt::Write>(&self, f: &mut fmt::Formatter<W>) -> fmt::Result {
        let refusal = self.0;
        write!(f, "{refusal}")?;
        match refusal.lack() {
            Some(lack) => write!(f, " for {}", On(lack.day)),
            None => Ok(()),
        }
    }
}

// A statement as a table: volumes in m³, lines in dollars.
#[derive(Clone, Copy)]
struct Table(pub StatedTerm);

impl fmt::Display for Table {
    fn fmt<W: fmt::Write>(&self, f: &mut fmt::Formatter<W>) -> fmt::Result {
        let term = self.0.term;
        let pool = self.0.pool;
        let status = self.0.status;
        let next = On(self.0.next);
        let balance = self.0.balance;
        let offered = self.0.on_offer;
        write!(
            f,
            "\n    term {term} of pool {pool}, {status}, next day to post {next}"
        )?;
        write!(f, "\n    balance          {balance:>20} m³")?;
        write!(f, "\n    gas on offer     {offered:>20} m³")?;
        lines(&self.0.lines, f)
    }
}

// The names of the charge lines.
const LINES: [&str; 5] = [
    "1 overrun",
    "2 gas",
    "3 transfer fee",
    "4 toll",
    "5 rollover fee",
];

fn lines<W: fmt::Write>(lines: &[i64; 5], f: &mut fmt::Formatter<W>) -> fmt::Result {
    for (name, line) in LINES.iter().zip(lines) {
        let charge = Dollars(*line);
        write!(f, "\n    {name:<16} {charge} $")?;
    }
    Ok(())
}

impl fmt::Display for Entry {
    fn fmt<W: fmt::Write>(&self, f: &mut fmt::Formatter<W>) -> fmt::Result {
        write!(f, "{}  {}: ", On(self.day), Asked(self.call))?;
        match self.answer {
            Answer::Done(value) => write!(f, "{}", Done(self.call, value)),
            Answer::Stated(stated) => write!(f, "done{}", Table(stated)),
            Answer::Refused(refusal) => write!(f, "refused {}", Because(refusal)),
        }
    }
}

// How the run ended: what was booked and refused, and where and why reading stopped.
impl fmt::Display for Report {
    fn fmt<W: fmt::Write>(&self, f: &mut fmt::Formatter<W>) -> fmt::Result {
        let calls = self.entries.len();
        let refused = refusals_in(&self.entries);
        let booked = calls.saturating_sub(refused);
        write!(f, "{calls} calls: {booked} done, {refused} refused; ")?;
        match self.stop {
            Some(stop) => write!(
                f,
                "reading stopped at word {}, {}",
                stop.place,
                Because(stop.refusal)
            ),
            None => f.write_str("read to the end"),
        }
    }
}
