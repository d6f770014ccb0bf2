// A northern journal run from its words, and from its bytes to the bytes of its answers.
ghost use Rattle.std.specs.Prelude.{◌≡◌, ◌≤◌, IfOk, IfErr, IfSome, Some, MatchOption};
ghost use Rattle.std.specs.Option.{ForSome};
ghost use Rattle.words.specs.Limits.{journal_words};
ghost use Rattle.north.specs.North.{no_price, priced_run, north_run, north_words, north_bytes, moved, stop_words};

use crate::output::Output;
use crate::price::price_of;
use calls::Refusal;
use journal::{Stop, run};
use ledger::north_ledger;
use octets::{bytes_of, words_in};
use std::alloc::Global;
use words::{JOURNAL_WORDS, Kind, VALUE_COUNT, word};
use zones::NotMade;

// A place in the input is the journal's plus 1.
fn behind_price(stop: Option<Stop>) -> Option<Stop>
    requires { ForSome stop (λ s. s.place ≤ journal_words) }
    ensures { result ≡ moved stop }
{
    stop.map(|stop| Stop {
        place: stop.place + 1,
        ..stop
    })
}

// Runs a journal under a reference price.
fn run_priced(heap: Global, price: u32, journal: &[u32]) -> Result<Output, NotMade>
    requires { price ≤ 10000000 }
    ensures run { IfOk result (λ o.
        (o.words.items ≡ (priced_run price journal.now).words)
        × (o.stop ≡ (priced_run price journal.now).stop)) }
    ensures memory { IfErr result (λ e. e ≡ NotMade.NoMemory) }
{
    let mut ledger = north_ledger(heap, price)?;
    let mut answers = vec![in heap; 0; JOURNAL_WORDS]?;
    let ran = run(&mut ledger, journal, &mut answers);
    answers.truncate(ran.written);
    Ok(Output {
        words: answers,
        stop: behind_price(ran.stop),
    })
}

// The price in front of a journal, and the journal.
#[tactic(auto, using(crate::proofs::Outputs::behind))]
fn priced(input: &[u32]) -> Option<(u32, &[u32])>
    ensures run { MatchOption result (north_run input.now ≡ no_price)
        (λ p. north_run input.now ≡ priced_run p.0 p.1.now) }
    ensures price { IfSome result (λ p. p.0 ≤ 10000000) }
{
    let (first, journal) = input.split_first()?;
    Some((price_of(*first)?, journal))
}

// Runs an input: a reference price, and then a journal.
pub fn run_words(heap: Global, input: &[u32]) -> Result<Output, NotMade>
    ensures run { IfOk result (λ o.
        (o.words.items ≡ (north_run input.now).words) × (o.stop ≡ (north_run input.now).stop)) }
    ensures memory { IfErr result (λ e. e ≡ NotMade.NoMemory) }
{
    match priced(input) {
        Some((price, journal)) => run_priced(heap, price, journal),
        None => Ok(stopped(heap)),
    }
}

// No price: stopped at the first word.
fn stopped(heap: Global) -> Output
    ensures { (result.words.items ≡ no_price.words) × (result.stop ≡ no_price.stop) }
{
    Output {
        words: Vec::new(heap),
        stop: Some(Stop {
            refusal: Refusal::BadWord,
            place: 0,
        }),
    }
}

// A stop as words: refused with its number, and its place.
fn words_of(stop: Stop) -> [u32; 2]
    ensures { result ≡ stop_words (Some stop) }
{
    [
        word(Kind::Refused, stop.refusal.rule().number),
        word(Kind::Number, (stop.place % VALUE_COUNT as usize) as u32),
    ]
}

// What is written for an input, in words.
fn answer_words(heap: Global, input: &[u32]) -> Result<Vec<u32>, NotMade>
    ensures words { IfOk result (λ v. v.items ≡ north_words input.now) }
    ensures memory { IfErr result (λ e. e ≡ NotMade.NoMemory) }
{
    let Output { mut words, stop } = run_words(heap, input)?;
    if let Some(stop) = stop {
        words.extend_from_slice(&words_of(stop))?;
    }
    Ok(words)
}

// What the program northrun writes for what it reads.
pub fn northrun(heap: Global, input: &[u8]) -> Result<Vec<u8>, NotMade>
    ensures bytes { IfOk result (λ v. v.items ≡ north_bytes input.now) }
    ensures memory { IfErr result (λ e. e ≡ NotMade.NoMemory) }
{
    let words = words_in(heap, input)?;
    let answers = answer_words(heap, &words)?;
    Ok(bytes_of(heap, &answers)?)
}
