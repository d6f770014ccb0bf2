// Every call by its least and greatest figures, every wrong kind, and the limits.
use answers::{answer as answer_at, encode};
use calls::{Answer, Call, Opening, Posting, Refusal, StatedTerm, Status};
use std::process::Abort;
use std::test::Fail;
use words::{Kind, Misread, Reader, number_of, read_calls, shape, word, write_calls};

const TOP: u32 = 0x0fff_ffff;

// The four calls, with this figure in every place.
fn every(figure: u32) -> [Call; 4] {
    [
        Call::Day,
        Call::Open(Opening {
            pool: figure,
            point: figure,
            mdv: figure,
            first: figure,
            last: figure,
        }),
        Call::Post(Posting {
            term: figure,
            delivered: figure,
            consumed: figure,
        }),
        Call::Statement { term: figure },
    ]
}

#[test]
fn calls_return(rt: HostRuntime) -> Result<(), Fail> {
    for figure in [0, 1, TOP] {
        let calls = every(figure);
        let words = write_calls(rt.alloc(), &calls)?;
        assert_eq!(rt; words.len(), 13);
        let back = read_calls(rt.alloc(), &words)?;
        assert_eq!(rt; back.as_slice(), calls.as_slice());
    }
    Ok(())
}

#[test]
fn figures_past_28_bits(rt: HostRuntime) {
    for call in every(TOP + 1) {
        assert_eq!(rt;
            write_calls(rt.alloc(), &[call]).is_ok(),
            number_of(&call) == 1
        );
    }
}

// A call's words with figures of 1, and one of them of another kind.
fn with_kind(number: u32, kinds: &[Kind], at: usize, kind: u32) -> [u32; 9] {
    let mut words = [0; 9];
    words[0] = word(Kind::Call, number);
    for (i, (figure, right)) in words[1..].iter_mut().zip(kinds).enumerate() {
        *figure = if i == at {
            kind << 28 | 1
        } else {
            word(*right, 1)
        };
    }
    words
}

// Reading a call stops at this place.
fn stops(rt: &impl Abort, words: &[u32], place: usize) {
    assert_eq!(rt; Reader::new(words).call().err(), Some(Misread { place }));
}

#[test]
fn wrong_kinds_stop(rt: HostRuntime) -> Result<(), Fail> {
    for number in [1, 2, 3, 10] {
        let kinds = shape(number).ok_or("no shape")?;
        for (at, right) in kinds.iter().enumerate() {
            for kind in 0..16 {
                let words = with_kind(number, kinds, at, kind);
                if kind == u32::from(*right) {
                    assert!(rt; Reader::new(&words).call().is_ok());
                } else {
                    stops(&rt, &words, 1 + at);
                }
                stops(&rt, words.get(..1 + at).unwrap_or(&[]), 1 + at);
            }
        }
    }
    stops(&rt, &[word(Kind::Call, 4)], 0);
    stops(&rt, &[word(Kind::Number, 1)], 0);
    Ok(())
}

#[test]
fn room(rt: HostRuntime) -> Result<(), Fail> {
    let mut calls = vec![in rt.alloc(); Call::Day; 8192]?;
    assert!(rt; write_calls(rt.alloc(), calls.as_slice()).is_ok());
    calls.push(Call::Day)?;
    assert!(rt; write_calls(rt.alloc(), calls.as_slice()).is_err());
    Ok(())
}

// An answer's words, and where each is read with another kind.
fn answered(rt: &impl Abort, call: &Call, answer: &Answer, len: usize) -> Result<(), Fail> {
    let encoded = encode(answer);
    assert_eq!(rt; encoded.len(), len);
    let mut words = [0; 18];
    words[..encoded.len()].copy_from_slice(&encoded);
    let mut reader = Reader::new(&words);
    assert_eq!(rt; answer_at(&mut reader, call)?, *answer);
    assert_eq!(rt; reader.place, len);
    for (place, word) in encoded.iter().enumerate() {
        let mut spoilt = words;
        if let Some(at) = spoilt.get_mut(place) {
            *at = *word ^ 0xf000_0000;
        }
        assert_eq!(rt;
            answer_at(&mut Reader::new(&spoilt), call).err(),
            Some(Misread { place })
        );
    }
    Ok(())
}

#[test]
fn answers_return(rt: HostRuntime) -> Result<(), Fail> {
    let stated = StatedTerm {
        term: TOP,
        pool: 1,
        status: Status::Expired,
        next: 3654,
        balance: -200_000_000,
        on_offer: 0,
        lines: [
            100_000_000_000_000,
            -100_000_000_000_000,
            -1,
            -100_000_000,
            0,
        ],
    };
    answered(
        &rt,
        &Call::Statement { term: TOP },
        &Answer::Stated(stated),
        18,
    )?;
    answered(&rt, &Call::Day, &Answer::Done(TOP), 2)?;
    answered(&rt, &Call::Day, &Answer::Refused(Refusal::NoRoom), 2)
}
