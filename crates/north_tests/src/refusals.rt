// Each refusal of the four calls, met in a run, and beside it the call next to it that is done.
use crate::tools::{last_answer, opening, posting, statement, turn};
use calls::{Answer, Call, Opening, Posting, Refusal};
use ledger::{NorthLedger, north_ledger};
use std::alloc::Global;
use std::test::Fail;

const FIRST: Answer = Answer::Done(1);

const LAST_DAY: Answer = Answer::Refused(Refusal::LastDay);

const NO_TERM: Answer = Answer::Refused(Refusal::NoTerm);

const WRONG_STATUS: Answer = Answer::Refused(Refusal::WrongStatus);

const OUT_OF_RANGE: Answer = Answer::Refused(Refusal::OutOfRange);

const FULL: Answer = Answer::Refused(Refusal::Full);

const OVERLAP: Answer = Answer::Refused(Refusal::Overlap);

const UNTIMELY: Answer = Answer::Refused(Refusal::Untimely);

const GAS_LIMIT: Answer = Answer::Refused(Refusal::GasLimit);

const CHARGE_LIMIT: Answer = Answer::Refused(Refusal::ChargeLimit);

// The answer to a call.
fn answer(heap: Global, ledger: &mut NorthLedger, call: Call) -> Result<Answer, Fail> {
    last_answer(heap, ledger, &[call])
}

// The answer to an opening.
fn open(heap: Global, ledger: &mut NorthLedger, opening: Opening) -> Result<Answer, Fail> {
    last_answer(heap, ledger, &[Call::Open(opening)])
}

#[test]
fn no_day_follows_the_last_2(rt: HostRuntime) -> Result<(), Fail> {
    let heap = rt.alloc();
    let mut ledger = north_ledger(heap, 1)?;
    assert_eq!(rt; turn(heap, &mut ledger, 3652)?, Answer::Done(3653));
    assert_eq!(rt; answer(heap, &mut ledger, Call::Day)?, LAST_DAY);
    Ok(())
}

#[test]
fn a_term_that_is_not_there_3(rt: HostRuntime) -> Result<(), Fail> {
    let heap = rt.alloc();
    let mut ledger = north_ledger(heap, 1)?;
    assert_eq!(rt; answer(heap, &mut ledger, posting(1, 1))?, NO_TERM);
    assert_eq!(rt;
        answer(heap, &mut ledger, Call::Statement { term: 1 })?,
        NO_TERM
    );
    assert_eq!(rt; open(heap, &mut ledger, opening(1, 2))?, Answer::Done(1));
    turn(heap, &mut ledger, 1)?;
    assert_eq!(rt; answer(heap, &mut ledger, posting(1, 1))?, Answer::Done(1));
    assert_eq!(rt; statement(heap, &mut ledger, 1)?.next, 2);
    assert_eq!(rt;
        answer(heap, &mut ledger, Call::Statement { term: 0 })?,
        NO_TERM
    );
    assert_eq!(rt;
        answer(heap, &mut ledger, Call::Statement { term: 2 })?,
        NO_TERM
    );
    Ok(())
}

#[test]
fn a_term_that_is_posted_whole_4(rt: HostRuntime) -> Result<(), Fail> {
    let heap = rt.alloc();
    let mut ledger = north_ledger(heap, 1)?;
    assert_eq!(rt; open(heap, &mut ledger, opening(1, 2))?, Answer::Done(1));
    turn(heap, &mut ledger, 2)?;
    assert_eq!(rt; answer(heap, &mut ledger, posting(1, 1))?, Answer::Done(1));
    assert_eq!(rt; answer(heap, &mut ledger, posting(1, 1))?, Answer::Done(2));
    assert_eq!(rt; answer(heap, &mut ledger, posting(1, 1))?, WRONG_STATUS);
    Ok(())
}

// The answer to an opening on day 2 of a new ledger.
fn opened(heap: Global, opening: Opening) -> Result<Answer, Fail> {
    let mut ledger = north_ledger(heap, 1)?;
    turn(heap, &mut ledger, 1)?;
    open(heap, &mut ledger, opening)
}

#[test]
fn each_figure_of_an_opening_5(rt: HostRuntime) -> Result<(), Fail> {
    let heap = rt.alloc();
    let base = opening(2, 3);
    for (pool, want) in [
        (0, OUT_OF_RANGE),
        (1, FIRST),
        (99_999, FIRST),
        (100_000, OUT_OF_RANGE),
    ] {
        assert_eq!(rt; opened(heap, Opening { pool, ..base })?, want);
    }
    for (point, want) in [(0, OUT_OF_RANGE), (1, FIRST), (3, FIRST), (4, OUT_OF_RANGE)] {
        assert_eq!(rt; opened(heap, Opening { point, ..base })?, want);
    }
    for (mdv, want) in [
        (0, OUT_OF_RANGE),
        (1, FIRST),
        (500_000, FIRST),
        (500_001, OUT_OF_RANGE),
    ] {
        assert_eq!(rt; opened(heap, Opening { mdv, ..base })?, want);
    }
    Ok(())
}

#[test]
fn the_days_of_an_opening_5(rt: HostRuntime) -> Result<(), Fail> {
    let heap = rt.alloc();
    let days = [
        (1, 2, OUT_OF_RANGE),
        (2, 2, FIRST),
        (3, 2, OUT_OF_RANGE),
        (2, 367, FIRST),
        (2, 368, OUT_OF_RANGE),
        (3400, 3400, FIRST),
        (3400, 3401, OUT_OF_RANGE),
    ];
    for (first, last, want) in days {
        assert_eq!(rt; opened(heap, opening(first, last))?, want);
    }
    Ok(())
}

#[test]
fn each_figure_of_a_posting_5(rt: HostRuntime) -> Result<(), Fail> {
    let heap = rt.alloc();
    let mut ledger = north_ledger(heap, 1)?;
    assert_eq!(rt; open(heap, &mut ledger, opening(1, 9))?, Answer::Done(1));
    turn(heap, &mut ledger, 9)?;
    assert_eq!(rt;
        answer(heap, &mut ledger, posting(10_000_001, 0))?,
        OUT_OF_RANGE
    );
    assert_eq!(rt;
        answer(heap, &mut ledger, posting(10_000_000, 0))?,
        Answer::Done(1)
    );
    assert_eq!(rt;
        answer(heap, &mut ledger, posting(0, 10_000_001))?,
        OUT_OF_RANGE
    );
    assert_eq!(rt;
        answer(heap, &mut ledger, posting(0, 10_000_000))?,
        Answer::Done(2)
    );
    Ok(())
}

#[test]
fn a_term_more_than_64_6(rt: HostRuntime) -> Result<(), Fail> {
    let heap = rt.alloc();
    let mut ledger = north_ledger(heap, 1)?;
    for pool in 1..65 {
        let opening = Opening {
            pool,
            ..opening(1, 2)
        };
        assert_eq!(rt; open(heap, &mut ledger, opening)?, Answer::Done(pool));
    }
    let opening = Opening {
        pool: 65,
        ..opening(1, 2)
    };
    assert_eq!(rt; open(heap, &mut ledger, opening)?, FULL);
    Ok(())
}

#[test]
fn a_shared_day_7(rt: HostRuntime) -> Result<(), Fail> {
    let heap = rt.alloc();
    let mut ledger = north_ledger(heap, 1)?;
    assert_eq!(rt; open(heap, &mut ledger, opening(10, 20))?, Answer::Done(1));
    assert_eq!(rt; open(heap, &mut ledger, opening(20, 30))?, OVERLAP);
    assert_eq!(rt; open(heap, &mut ledger, opening(1, 10))?, OVERLAP);
    assert_eq!(rt; open(heap, &mut ledger, opening(12, 13))?, OVERLAP);
    assert_eq!(rt; open(heap, &mut ledger, opening(21, 30))?, Answer::Done(2));
    assert_eq!(rt; open(heap, &mut ledger, opening(1, 9))?, Answer::Done(3));
    let other = Opening {
        pool: 2,
        ..opening(10, 20)
    };
    assert_eq!(rt; open(heap, &mut ledger, other)?, Answer::Done(4));
    Ok(())
}

#[test]
fn a_day_that_is_not_over_8(rt: HostRuntime) -> Result<(), Fail> {
    let heap = rt.alloc();
    let mut ledger = north_ledger(heap, 1)?;
    assert_eq!(rt; open(heap, &mut ledger, opening(1, 9))?, Answer::Done(1));
    assert_eq!(rt; answer(heap, &mut ledger, posting(1, 1))?, UNTIMELY);
    turn(heap, &mut ledger, 1)?;
    assert_eq!(rt; answer(heap, &mut ledger, posting(1, 1))?, Answer::Done(1));
    assert_eq!(rt; answer(heap, &mut ledger, posting(1, 1))?, UNTIMELY);
    Ok(())
}

#[test]
fn a_balance_past_its_limit_9(rt: HostRuntime) -> Result<(), Fail> {
    let heap = rt.alloc();
    for (delivered, consumed) in [(10_000_000, 0), (0, 10_000_000)] {
        let mut ledger = north_ledger(heap, 0)?;
        assert_eq!(rt; open(heap, &mut ledger, opening(1, 30))?, Answer::Done(1));
        turn(heap, &mut ledger, 30)?;
        for day in 1..21 {
            assert_eq!(rt;
                answer(heap, &mut ledger, posting(delivered, consumed))?,
                Answer::Done(day)
            );
        }
        assert_eq!(rt;
            answer(
                heap,
                &mut ledger,
                posting(delivered.min(1), consumed.min(1))
            )?,
            GAS_LIMIT
        );
        assert_eq!(rt; answer(heap, &mut ledger, posting(1, 1))?, Answer::Done(21));
    }
    Ok(())
}

#[test]
fn a_line_past_its_limit_10(rt: HostRuntime) -> Result<(), Fail> {
    let heap = rt.alloc();
    let mut ledger = north_ledger(heap, 10_000_000)?;
    let large = Opening {
        mdv: 500_000,
        ..opening(1, 30)
    };
    assert_eq!(rt; open(heap, &mut ledger, large)?, Answer::Done(1));
    turn(heap, &mut ledger, 30)?;
    for day in 1..21 {
        assert_eq!(rt;
            answer(heap, &mut ledger, posting(0, 0))?,
            Answer::Done(day)
        );
    }
    assert_eq!(rt;
        answer(heap, &mut ledger, posting(499_999, 0))?,
        CHARGE_LIMIT
    );
    assert_eq!(rt;
        answer(heap, &mut ledger, posting(500_000, 0))?,
        Answer::Done(21)
    );
    let lines = statement(heap, &mut ledger, 1)?.lines;
    assert_eq!(rt; lines, [100_000_000_000_000, 0, 0, 0, 0]);
    Ok(())
}

// A posting for a term that is open beside another one books that one alone.
#[test]
fn a_posting_books_its_own_term(rt: HostRuntime) -> Result<(), Fail> {
    let heap = rt.alloc();
    let mut ledger = north_ledger(heap, 7)?;
    assert_eq!(rt; open(heap, &mut ledger, opening(1, 9))?, Answer::Done(1));
    let other = Opening {
        pool: 2,
        mdv: 10,
        ..opening(1, 9)
    };
    assert_eq!(rt; open(heap, &mut ledger, other)?, Answer::Done(2));
    turn(heap, &mut ledger, 1)?;
    let posting = Posting {
        term: 2,
        delivered: 4,
        consumed: 9,
    };
    assert_eq!(rt;
        answer(heap, &mut ledger, Call::Post(posting))?,
        Answer::Done(1)
    );
    for (term, balance, overrun) in [(1, 0, 0), (2, -5, 42)] {
        let stated = statement(heap, &mut ledger, term)?;
        assert_eq!(rt; stated.balance, balance);
        assert_eq!(rt; stated.lines, [overrun, 0, 0, 0, 0]);
    }
    Ok(())
}
