// The call statement.
ghost use Rattle.book.specs.Rulings.{Ruled, statement};
ghost use Rattle.book.specs.Statement.{statement_ruling};
ghost use Rattle.tables.specs.View.{view};

use calls::{Refusal, StatedTerm};
use tables::Tables;

// States a term.
#[tactic(auto, using(crate::proofs::Stated::states))]
pub fn state(tables: &Tables, term: u32) -> Result<StatedTerm, Refusal>
    ensures { Ruled statement (view tables.now) (statement_ruling (view tables.now) term) result
        (view tables.now) }
{
    // 3
    let held = tables.find(term)?;
    Ok(StatedTerm {
        term,
        pool: held.term.contract.pool,
        status: held.term.status(tables.day),
        next: held.term.next,
        balance: tables.gas[held.at].figures[0],
        on_offer: 0,
        lines: tables.lines[held.at].figures,
    })
}
