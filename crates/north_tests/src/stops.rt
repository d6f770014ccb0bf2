// Inputs that are not read to their end.
use crate::tools::{DAY, PRICE, answer, stop};
use calls::Refusal;
use journal::Stop;
use std::test::Fail;

#[test]
fn no_price(rt: HostRuntime) -> Result<(), Fail> {
    let heap = rt.alloc();
    assert_eq!(rt; stop(heap, &[])?, (1, 0));
    assert_eq!(rt; stop(heap, &[DAY])?, (1, 0));
    assert_eq!(rt; stop(heap, &[0x4002_49F0, DAY])?, (1, 0));
    assert_eq!(rt; stop(heap, &[0x6098_9681, DAY])?, (1, 0));
    assert_eq!(rt; answer(heap, &[0x6098_9680, DAY], 0)?, 0x8000_0002);
    Ok(())
}

#[test]
fn cut_inside_a_word(rt: HostRuntime) -> Result<(), Fail> {
    let output = north::northrun(rt.alloc(), &[0xF0, 0x49, 0x02, 0x60, 0x01, 0x00])?;
    assert!(rt; output.as_slice() == [1, 0, 0, 0x90, 1, 0, 0, 0x20].as_slice());
    Ok(())
}

#[test]
fn wrong_unknown_and_missing_words(rt: HostRuntime) -> Result<(), Fail> {
    let heap = rt.alloc();
    assert_eq!(rt; stop(heap, &[PRICE, 0x0000_0001])?, (1, 1));
    assert_eq!(rt; stop(heap, &[PRICE, 0x1000_0000])?, (1, 1));
    assert_eq!(rt; stop(heap, &[PRICE, 0x1000_000B])?, (1, 1));
    assert_eq!(rt;
        stop(heap, &[PRICE, DAY, 0x1000_0003, 0x2000_0001, 0x4000_0001])?,
        (1, 5)
    );
    assert_eq!(rt;
        stop(
            heap,
            &[
                PRICE,
                DAY,
                0x1000_0003,
                0x2000_0001,
                0x3000_0001,
                0x4000_0001,
            ]
        )?,
        (1, 4)
    );
    Ok(())
}

#[test]
fn what_stops_a_run_1_5_19(rt: HostRuntime) -> Result<(), Fail> {
    let heap = rt.alloc();
    let mut ledger = ledger::north_ledger(heap, 1)?;
    let mut long = vec![in heap; DAY; 8192]?;
    let mut memory = vec![in heap; 0; 16_384]?;
    let ran = journal::run(&mut ledger, &long, &mut memory);
    assert!(rt; ran.stop.is_none() && ran.written == 16_384);
    long.push(DAY)?;
    let rows = [
        (long.as_slice(), 16_384, Refusal::OutOfRange, 0, 0),
        (
            [DAY, 0x1000_0003, 0x2000_0001].as_slice(),
            2,
            Refusal::BadWord,
            3,
            2,
        ),
        ([DAY, DAY].as_slice(), 3, Refusal::NoRoom, 1, 2),
    ];
    for (words, room, refusal, place, written) in rows {
        let mut memory = vec![in heap; 0; room]?;
        let ran = journal::run(&mut ledger, words, &mut memory);
        assert_eq!(rt; ran.stop, Some(Stop { refusal, place }));
        assert_eq!(rt; ran.written, written);
    }
    Ok(())
}
