// Finding a term.
ghost use Rattle.std.specs.Prelude.{◌≡◌, ◌+◌, ◌<◌, true, false, vec_len, MatchResult};
ghost use Rattle.calls.specs.declared.refusal.Refusal.TheVariants.{NoTerm};
ghost use Rattle.book.specs.Accounts.{missing};
ghost use Rattle.tables.specs.View.{Found, view_accounts};

use crate::holding::Holding;
use crate::tables::Tables;
use calls::Refusal;

impl Tables {
    // A term's place in the tables; 3 where there is none.
    #[tactic(auto, using(crate::proofs::Accounts::told))]
    pub fn place(&self, term: u32) -> Result<usize, Refusal>
        ensures { MatchResult result
            (λ i. (i + 1 ≡ term) × (i < vec_len self.now.terms) × (missing (view_accounts self.now) term ≡ false))
            (λ e. (e ≡ NoTerm) × (missing (view_accounts self.now) term ≡ true)) }
    {
        match (term as usize).checked_sub(1) {
            Some(at) if at < self.terms.len() => Ok(at),
            _ => Err(Refusal::NoTerm),
        }
    }

    // The term of a number, with its place.
    #[tactic(auto, using(crate::proofs::Accounts::read_at))]
    pub fn find(&self, term: u32) -> Result<Holding, Refusal>
        ensures { MatchResult result (Found self.now term)
            (λ e. (e ≡ NoTerm) × (missing (view_accounts self.now) term ≡ true)) }
    {
        let at = self.place(term)?;
        Ok(Holding {
            at,
            term: self.terms[at],
        })
    }
}
