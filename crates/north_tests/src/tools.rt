// What the tests share: inputs by their words, runs of calls, and what is looked for in an output.
use answers::read_answers;
use calls::{Answer, Call, Opening, Posting, StatedTerm};
use ledger::Ledger;
use north::run_words;
use std::alloc::Global;
use std::test::Fail;
use words::write_calls;
use zones::RateZone;

pub const PRICE: u32 = 0x6002_49F0;

pub const DAY: u32 = 0x1000_0001;

// The number and the place at which a run stops.
pub fn stop(heap: Global, input: &[u32]) -> Result<(u32, usize), Fail> {
    let stop = run_words(heap, input)?.stop.ok_or("read to the end")?;
    Ok((stop.refusal.rule().number, stop.place))
}

// The word at a place of the answers of a run, which is read to its end.
pub fn answer(heap: Global, input: &[u32], at: usize) -> Result<u32, Fail> {
    let output = run_words(heap, input)?;
    if output.stop.is_some() {
        return Err(Fail::new("stopped"));
    }
    Ok(output.words.get(at).copied().ok_or("no such word")?)
}

// Adds an open call: a pool at Dawn with an MDV of 1 and thirty days from day 1 on.
pub fn open(input: &mut Vec<u32>, pool: u32) -> Result<(), Fail> {
    input.extend_from_slice(&[
        0x1000_0002,
        0x2000_0000 | (pool & 0xfffff),
        0x5000_0002,
        0x4000_0001,
        0x3000_0001,
        0x3000_001E,
    ])?;
    Ok(())
}

// Adds a post call for term 1.
pub fn post(input: &mut Vec<u32>, delivered: u32, consumed: u32) -> Result<(), Fail> {
    input.extend_from_slice(&[
        0x1000_0003,
        0x2000_0001,
        0x4000_0000 | (delivered & 0xfff_ffff),
        0x4000_0000 | (consumed & 0xfff_ffff),
    ])?;
    Ok(())
}

// Runs the calls as a journal, and reads the answer to the last one back from its words.
pub fn last_answer<Z: RateZone>(
    heap: Global,
    ledger: &mut Ledger<Z>,
    calls: &[Call],
) -> Result<Answer, Fail> {
    let journal = write_calls(heap, calls)?;
    let mut memory = vec![in heap; 0; 8192]?;
    let ran = journal::run(ledger, &journal, &mut memory);
    if ran.stop.is_some() {
        return Err(Fail::new("stopped"));
    }
    memory.truncate(ran.written);
    let answers = read_answers(heap, calls, &memory)?;
    Ok(answers.last().copied().ok_or("no call")?)
}

// The statement of a term.
pub fn statement<Z: RateZone>(
    heap: Global,
    ledger: &mut Ledger<Z>,
    term: u32,
) -> Result<StatedTerm, Fail> {
    match last_answer(heap, ledger, &[Call::Statement { term }])? {
        Answer::Stated(stated) => Ok(stated),
        _ => Err(Fail::new("no statement")),
    }
}

// Turns so many days, and answers what the last of these calls answered.
pub fn turn<Z: RateZone>(
    heap: Global,
    ledger: &mut Ledger<Z>,
    days: usize,
) -> Result<Answer, Fail> {
    let calls = vec![in heap; Call::Day; days]?;
    last_answer(heap, ledger, &calls)
}

// A term of pool 1 at Western with an MDV of 1, for these days.
pub fn opening(first: u32, last: u32) -> Opening {
    Opening {
        pool: 1,
        point: 1,
        mdv: 1,
        first,
        last,
    }
}

// A posting for term 1.
pub fn posting(delivered: u32, consumed: u32) -> Call {
    Call::Post(Posting {
        term: 1,
        delivered,
        consumed,
    })
}
