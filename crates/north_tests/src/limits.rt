// Journals and figures at the ends of their ranges.
use crate::tools::{DAY, PRICE, answer, open, post, stop};
use std::alloc::Global;
use std::test::Fail;

// A price, and then so many day calls.
fn days(heap: Global, count: usize) -> Result<Vec<u32>, Fail> {
    let mut input = vec![in heap; DAY; count]?;
    input.insert(0, PRICE)?;
    Ok(input)
}

#[test]
fn long_journals(rt: HostRuntime) -> Result<(), Fail> {
    let heap = rt.alloc();
    assert_eq!(rt; answer(heap, &days(heap, 4096)?, 8190)?, 0x9000_0002);
    assert_eq!(rt; stop(heap, &days(heap, 4097)?)?, (19, 4097));
    assert_eq!(rt; stop(heap, &days(heap, 8192)?)?, (19, 4097));
    assert_eq!(rt; stop(heap, &days(heap, 8193)?)?, (5, 1));
    Ok(())
}

#[test]
fn exact_and_short_memory(rt: HostRuntime) -> Result<(), Fail> {
    let mut ledger = ledger::north_ledger(rt.alloc(), 1)?;
    let mut short = [7];
    let ran = journal::run(&mut ledger, &[DAY], &mut short);
    assert_eq!(rt; ran.written, 0);
    assert_eq!(rt; short[0], 7);
    assert!(rt; ran.stop.is_some());
    let mut exact = [7, 7];
    let ran = journal::run(&mut ledger, &[DAY], &mut exact);
    assert_eq!(rt; ran.written, 2);
    assert_eq!(rt; exact[0], 0x8000_0002);
    assert!(rt; ran.stop.is_none());
    Ok(())
}

#[test]
fn terms_that_are_not_there(rt: HostRuntime) -> Result<(), Fail> {
    let heap = rt.alloc();
    assert_eq!(rt;
        answer(heap, &[PRICE, 0x1000_000A, 0x2000_0000], 0)?,
        0x9000_0003
    );
    let mut input = vec![in heap; PRICE]?;
    for pool in 1..65 {
        open(&mut input, pool)?;
    }
    input.extend_from_slice(&[0x1000_000A, 0x2000_0041])?;
    assert_eq!(rt; answer(heap, &input, 126)?, 0x8000_0040);
    assert_eq!(rt; answer(heap, &input, 128)?, 0x9000_0003);
    open(&mut input, 65)?;
    assert_eq!(rt; answer(heap, &input, 130)?, 0x9000_0006);
    Ok(())
}

#[test]
fn posting(rt: HostRuntime) -> Result<(), Fail> {
    let heap = rt.alloc();
    let mut input = vec![in heap; PRICE]?;
    open(&mut input, 1)?;
    post(&mut input, 1, 0)?;
    assert_eq!(rt; answer(heap, &input, 2)?, 0x9000_0008);
    input.extend_from_slice(&[DAY; 25])?;
    post(&mut input, 10_000_001, 0)?;
    for _ in 0..20 {
        post(&mut input, 10_000_000, 0)?;
    }
    post(&mut input, 1, 0)?;
    input.extend_from_slice(&[0x1000_000A, 0x2000_0001])?;
    assert_eq!(rt; answer(heap, &input, 54)?, 0x9000_0005);
    assert_eq!(rt; answer(heap, &input, 94)?, 0x8000_0014);
    assert_eq!(rt; answer(heap, &input, 96)?, 0x9000_0009);
    assert_eq!(rt; answer(heap, &input, 104)?, 0x6BEB_C200);
    Ok(())
}
