// The call open.
ghost use Rattle.std.specs.Prelude.{◌≡◌, ◌≤◌, replicate, pos, is_some, IfSome};
ghost use Rattle.std.specs.List.{list_any};
ghost use Rattle.book.specs.Accounts.{opened};
ghost use Rattle.book.specs.Open.{open_ruling, in_range, contract_of};
ghost use Rattle.book.specs.Rulings.{Ruled, figure};
ghost use Rattle.tables.specs.Rows.{account_of};
ghost use Rattle.tables.specs.View.{view};
ghost use Rattle.accounts.specs.Plans.{term_overlaps};

use balancing::{MDV_LIMIT, TERM_DAYS};
use book::{Contract, POOL_LIMIT, TERM_ENDS};
use calls::{Opening, Refusal};
use prices::Point;
use tables::{Tables, Term};

// A term as it is opened, if its figures are in range.
fn opened(today: u32, o: Opening) -> Option<Term>
    requires { 1 ≤ today }
    ensures test { is_some result ≡ in_range today o }
    ensures made { IfSome result (λ t.
        account_of t (replicate 1 (pos 0)) (replicate 5 (pos 0)) ≡ opened (contract_of o)) }
{
    let point = Point::try_from(o.point).ok()?;
    if !(1..=POOL_LIMIT).contains(&o.pool) || !(1..=MDV_LIMIT).contains(&o.mdv) {
        return None;
    }
    if o.first < today || o.first > o.last || o.last > TERM_ENDS || o.last - o.first >= TERM_DAYS {
        return None;
    }
    Some(Term {
        contract: Contract {
            pool: o.pool,
            point,
            mdv: o.mdv,
            first: o.first,
            last: o.last,
        },
        next: o.first,
    })
}

// A term of the same pool that shares a day with the opening.
fn overlaps(term: &Term, o: Opening) -> bool
    ensures { result ≡ term_overlaps o term.now }
{
    let c = term.contract;
    c.pool == o.pool && c.first <= o.last && o.first <= c.last
}

// Some term of the same pool shares a day with the opening.
fn any_overlaps(terms: &[Term], o: Opening) -> bool
    ensures { result ≡ list_any (term_overlaps o) terms.now }
{
    terms.iter().any(|term| overlaps(term, o))
}

// Opens a term and answers its number.
#[tactic(auto, using(crate::proofs::Opened::told_open))]
pub fn open(tables: &mut Tables, o: Opening) -> Result<u32, Refusal>
    ensures { Ruled figure (view tables.old) (open_ruling (view tables.old) o) result (view tables.new) }
{
    // 5
    let term = opened(tables.day, o).ok_or(Refusal::OutOfRange)?;
    if any_overlaps(&tables.terms, o) {
        return Err(Refusal::Overlap);
    }
    // 6
    tables.add(term)
}
