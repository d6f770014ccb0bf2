// The call post: its tests, then its price, then its booking.
ghost use Rattle.std.specs.Prelude.{◌≡◌, ◌^◌, ◌<◌, ◌≤◌, true, false, List, ℤ, IfOk, MatchResult};
ghost use Rattle.calls.specs.declared.refusal.Refusal.TheVariants.{GasLimit};
ghost use Rattle.book.specs.Accounts.{account_at, day_posted};
ghost use Rattle.book.specs.Gas.{may_bank};
ghost use Rattle.book.specs.Post.{net_of, overrun_line, overrun_owed, before_the_price, post_ruling};
ghost use Rattle.book.specs.Rulings.{Ruled, Planned, figure};
ghost use Rattle.tables.specs.Rows.{account_of};
ghost use Rattle.tables.specs.View.{Found, view, view_accounts};
ghost use Rattle.accounts.specs.Plans.{Ready, charging};

use book::POSTED_LIMIT;
use calls::{Posting, Refusal};
use prices::{Lack, Span};
use tables::{Holding, Tables, Term, enter};
use zones::RateZone;

// Books a term's next unposted day and answers it.
pub fn post<Z: RateZone>(tables: &mut Tables, zone: &Z, day: Posting) -> Result<u32, Refusal>
    ensures { Ruled figure (view tables.old)
        (post_ruling (Z.means zone.now).overrun (view tables.old) day) result (view tables.new) }
{
    let held = plan(tables, &day)?;
    // 11, by `From<Lack>`
    let owed = owed(zone, &held.term, &day)?;
    book(tables, held, &day, owed)
}

// The term and its place, if the tests before the price are passed.
fn plan(tables: &Tables, day: &Posting) -> Result<Holding, Refusal>
    ensures { Planned (before_the_price (view tables.now) day.now) (Ready tables.now day.now) result }
{
    // 3
    let held = tables.find(day.term)?;
    let term = held.term;
    if term.next > term.contract.last {
        return Err(Refusal::WrongStatus);
    }
    if day.delivered > POSTED_LIMIT || day.consumed > POSTED_LIMIT {
        return Err(Refusal::OutOfRange);
    }
    if term.next >= tables.day {
        return Err(Refusal::Untimely);
    }
    test_gas(tables, &held, day)?;
    Ok(held)
}

// What a day adds to a balance.
fn net_of(day: &Posting) -> i64
    ensures { result ≡ net_of day.now }
{
    day.delivered as i64 - day.consumed as i64
}

// Whether a term's gas may grow by what the day adds.
fn test_gas(tables: &Tables, held: &Holding, day: &Posting) -> Result<(), Refusal>
    requires { Found tables.now day.now.term held.now }
    ensures { MatchResult result
        (λ _. may_bank (account_at (view_accounts tables.now) day.now.term) (net_of day.now) ≡ true)
        (λ e. (e ≡ GasLimit)
        × (may_bank (account_at (view_accounts tables.now) day.now.term) (net_of day.now) ≡ false)) }
{
    // 9, by `From<Fault<GAS_LIMIT>>`
    tables.gas[held.at].plus(&[net_of(day)])?;
    Ok(())
}

// What is short of the MDV, at the day's price; where nothing is short no price is sought.
fn owed<Z: RateZone>(zone: &Z, term: &Term, day: &Posting) -> Result<u64, Lack>
    ensures value { result
        ≡ overrun_owed (Z.means zone.now).overrun term.now.contract term.now.next day.now.delivered }
    ensures most { IfOk result (λ m. m < 2 ^ 62) }
{
    let contract = term.contract;
    if day.delivered >= contract.mdv {
        return Ok(0);
    }
    let span = Span {
        from: term.next,
        to: term.next,
    };
    let price = zone.overrun(contract.point, span)?;
    Ok((contract.mdv - day.delivered) as u64 * price as u64)
}

// A charge on line 1.
fn overrun(owed: u64) -> [i64; 5]
    requires { owed < 2 ^ 62 }
    ensures { result ≡ overrun_line owed }
{
    [owed as i64, 0, 0, 0, 0]
}

// The term with its next day posted.
fn posted(term: &Term) -> Term
    requires { term.now.next ≤ term.now.contract.last }
    ensures { (g l : List ℤ) → account_of result g l ≡ day_posted (account_of term.now g l) }
{
    // Kept: tried; Rattle takes no `..*term` in a literal of a struct with ghost fields.
    let mut term = *term;
    term.next += 1;
    term
}

// Books a posting: its charge line, then its gas, then its day, which it answers.
fn book(tables: &mut Tables, held: Holding, day: &Posting, owed: u64) -> Result<u32, Refusal>
    requires ready { Ready tables.old day.now held }
    requires sum { owed < 2 ^ 62 }
    ensures { Ruled figure (view tables.old) (charging (view tables.old) day.now owed) result (view tables.new) }
{
    // 10, by `From<Fault<CHARGE_LIMIT>>`
    enter(&mut tables.lines, held.at, &overrun(owed))?;
    // never refused: the plan has tested it
    enter(&mut tables.gas, held.at, &[net_of(day)])?;
    tables.terms[held.at] = posted(&held.term);
    Ok(held.term.next)
}
