// The ledger's calls over every rate zone.
ghost use Rattle.std.specs.Prelude.{◌≡◌, not};
ghost use Rattle.book.specs.Accounts.{missing};
ghost use Rattle.book.specs.Rulings.{Meets};
ghost use Rattle.book.specs.Step.{step};
ghost use Rattle.ledger.specs.Answering.{given};
ghost use Rattle.runs.specs.Keeping.{Keeps};
ghost use Rattle.tables.specs.View.{view};

use crate::ledger::Ledger;
use accounts::{day, open, post, statement};
use calls::{Answer, Call, Refusal};
use zones::RateZone;

impl<Z: RateZone> Ledger<Z> {
    // The call, one row for each.
    #[tactic(auto, using(runs::proofs::Firsts::done_meets, runs::proofs::Firsts::refused_meets))]
    fn make(&mut self, call: Call) -> Result<Answer, Refusal>
        ensures call { Meets
            (step (Z.means self.old.zone) (view self.old.tables) call)
            (given result) (view self.new.tables) }
        ensures zone { self.new.zone ≡ self.old.zone }
    {
        Ok(match call {
            Call::Day => Answer::Done(day::turn(&mut self.tables)?),
            Call::Open(opening) => Answer::Done(open::open(&mut self.tables, opening)?),
            Call::Post(posting) => Answer::Done(post::post(&mut self.tables, &self.zone, posting)?),
            Call::Statement { term } => Answer::Stated(statement::state(&self.tables, term)?),
        })
    }

    // Makes a call: its answer and the state after it are the book's, and a refused call changes nothing.
    pub fn apply(&mut self, call: Call) -> Answer
        ensures call { Meets
            (step (Z.means self.old.zone) (view self.old.tables) call)
            result (view self.new.tables) }
        ensures keeps { Keeps (view self.old.tables) result (view self.new.tables) }
        ensures zone { self.new.zone ≡ self.old.zone }
    {
        self.make(call).unwrap_or_else(Answer::Refused)
    }
}

impl<Z> Ledger<Z> {
    // Whether there is a term of this number.
    pub fn has_term(&self, term: u32) -> bool
        ensures { result ≡ not (missing (view self.now.tables).accounts term) }
    {
        self.tables.place(term).is_ok()
    }
}
