// Adding a term.
ghost use Rattle.std.specs.Prelude.{◌≡◌, ◌+◌, ◌<◌, ◌≤◌, [], ◌∷◌, ◌++◌, length, replicate, pos, MatchResult};
ghost use Rattle.calls.specs.declared.refusal.Refusal.TheVariants.{Full};
ghost use Rattle.book.specs.Limits.{term_places};
ghost use Rattle.book.specs.State.{with_accounts};
ghost use Rattle.tables.specs.Rows.{account_of};
ghost use Rattle.tables.specs.View.{view};

use crate::tables::Tables;
use crate::term::Term;
use amounts::{Charges, Gas};
use book::TERM_PLACES;
use calls::Refusal;

impl Tables {
    // Adds a term with no gas and nothing owed, and answers its number; refused with 6, and nothing is added, where all
    // places are taken.
    #[tactic(auto, using(crate::proofs::Accounts::told))]
    pub fn add(&mut self, term: Term) -> Result<u32, Refusal>
        ensures { MatchResult result
            (λ n. (length (view self.old).accounts < term_places)
            × (n ≡ length (view self.old).accounts + 1)
            × (view self.new ≡ with_accounts (view self.old)
            ((view self.old).accounts ++ account_of term (replicate 1 (pos 0)) (replicate 5 (pos 0)) ∷ [])))
            (λ e. (term_places ≤ length (view self.old).accounts) × (e ≡ Full) × (view self.new ≡ view self.old)) }
    {
        if self.terms.len() >= TERM_PLACES {
            return Err(Refusal::Full);
        }
        self.terms.push_reserved(term);
        self.gas.push_reserved(Gas::none());
        self.lines.push_reserved(Charges::none());
        Ok(self.terms.len() as u32)
    }
}
