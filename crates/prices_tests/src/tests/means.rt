// Means over the days of a span.
use crate::tests::figures::{daily, monthly};
use prices::{Daily, Lack, Point, PriceSource, Span};
use std::test::Fail;

// One day; over 29 February; over a year's end; a year; and the whole span.
#[test]
fn means_of_spans(rt: HostRuntime) -> Result<(), Fail> {
    let days = daily(rt.alloc())?;
    let months = monthly(rt.alloc(), 120)?;
    let spans = [
        (60, 60, 100_060, 1_000),
        (59, 61, 100_060, 1_333),
        (366, 367, 100_367, 11_500),
        (1, 366, 100_184, 5_514),
        (1, 3653, 101_827, 59_517),
    ];
    for (from, to, by_day, by_month) in spans {
        let span = Span::new(from, to)?;
        assert_eq!(rt; days.price(Point::Dawn, span), Ok(by_day));
        assert_eq!(rt; months.price(Point::Western, span), Ok(by_month));
    }
    Ok(())
}

// A marked entry, a day before the start, a day past the list, and a month past the list.
#[test]
fn first_missing_day(rt: HostRuntime) -> Result<(), Fail> {
    let days = Daily::new(
        11,
        vec![in rt.alloc(); 5, 10_000_000, 10_000_001, 7, 10_000_001]?,
    )?;
    for (from, to, day) in [(11, 20, 13), (10, 11, 10), (14, 16, 15), (16, 17, 16)] {
        assert_eq!(rt;
            days.price(Point::Ontario, Span::new(from, to)?),
            Err(Lack { day })
        );
    }
    assert_eq!(rt;
        days.price(Point::Ontario, Span::new(11, 12)?),
        Ok(5_000_003)
    );
    assert_eq!(rt;
        monthly(rt.alloc(), 2)?.price(Point::Dawn, Span::new(50, 100)?),
        Err(Lack { day: 61 })
    );
    Ok(())
}
