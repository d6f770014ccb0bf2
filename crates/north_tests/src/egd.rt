// The EGD ledger: how it is made, and journals that run through it.
use crate::tools::{last_answer, opening, posting, statement, turn};
use book::Allowances;
use calls::{Answer, Call, Opening, Refusal};
use ledger::{EgdLedger, egd_ledger};
use prices::Lack;
use std::alloc::Global;
use std::test::Fail;
use zones::NotMade;

const ALLOWED: Allowances = Allowances {
    western: 500_000,
    dawn: 500_000,
    ontario: 500_000,
};

// A ledger with highs for days 1 and 3, and a term of pool 1 with an MDV of 1,000 for days 1 to 9, on day 9.
fn opened(heap: Global) -> Result<EgdLedger, Fail> {
    let highs = [100_000, 10_000_001, 200_000];
    let mut ledger = egd_ledger(heap, 1, &highs, &[100_001], ALLOWED)?;
    let opening = Opening {
        mdv: 1_000,
        ..opening(1, 9)
    };
    last_answer(heap, &mut ledger, &[Call::Open(opening)])?;
    turn(heap, &mut ledger, 8)?;
    Ok(ledger)
}

#[test]
fn overrun_is_charged_at_the_price_of_its_day(rt: HostRuntime) -> Result<(), Fail> {
    let heap = rt.alloc();
    let mut ledger = opened(heap)?;
    let answer = last_answer(heap, &mut ledger, &[posting(900, 0)])?;
    assert_eq!(rt; answer, Answer::Done(1));
    assert_eq!(rt;
        statement(heap, &mut ledger, 1)?.lines,
        [15_000_000, 0, 0, 0, 0]
    );
    let answer = last_answer(heap, &mut ledger, &[posting(1_000, 0), posting(999, 0)])?;
    assert_eq!(rt; answer, Answer::Done(3));
    assert_eq!(rt;
        statement(heap, &mut ledger, 1)?.lines,
        [15_300_000, 0, 0, 0, 0]
    );
    Ok(())
}

#[test]
fn a_lacking_price_is_told_with_its_day_11(rt: HostRuntime) -> Result<(), Fail> {
    let heap = rt.alloc();
    let mut ledger = opened(heap)?;
    let answer = last_answer(heap, &mut ledger, &[posting(900, 0), posting(999, 0)])?;
    assert_eq!(rt; answer, Answer::Refused(Refusal::Lacking(Lack { day: 2 })));
    let answer = last_answer(heap, &mut ledger, &[posting(1_000, 0)])?;
    assert_eq!(rt; answer, Answer::Done(2));
    let answer = last_answer(heap, &mut ledger, &[posting(0, 0), posting(0, 0)])?;
    assert_eq!(rt; answer, Answer::Refused(Refusal::Lacking(Lack { day: 4 })));
    Ok(())
}

#[test]
fn an_egd_ledger_is_made_in_its_ranges_alone(rt: HostRuntime) -> Result<(), Fail> {
    let heap = rt.alloc();
    let long = vec![in heap; 1; 3654]?;
    let makes = [
        (0, 1, 1, false),
        (1, 3653, 120, true),
        (3653, 0, 0, true),
        (3654, 0, 0, false),
        (1, 3654, 0, false),
        (1, 0, 121, false),
    ];
    for (start, highs, index, made) in makes {
        let highs = long.get(..highs).unwrap_or(&[]);
        let index = long.get(..index).unwrap_or(&[]);
        let result = egd_ledger(heap, start, highs, index, ALLOWED);
        assert_eq!(rt; result.is_ok(), made);
        assert!(rt; made || result.err() == Some(NotMade::Refused(Refusal::OutOfRange)));
    }
    let large = Allowances {
        dawn: 10_000_001,
        ..ALLOWED
    };
    let result = egd_ledger(heap, 1, &[], &[], large);
    assert!(rt; result.err() == Some(NotMade::Refused(Refusal::OutOfRange)));
    Ok(())
}
