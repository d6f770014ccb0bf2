// Days, months and dates.
use calendar::{Date, date_of, last_of, month_of};
use std::test::Fail;

#[test]
fn dates_are_written(rt: HostRuntime) -> Result<(), Fail> {
    let days = [
        (1, "2024-01-01"),
        (60, "2024-02-29"),
        (61, "2024-03-01"),
        (366, "2024-12-31"),
        (367, "2025-01-01"),
        (425, "2025-02-28"),
        (426, "2025-03-01"),
        (3653, "2033-12-31"),
    ];
    for (day, text) in days {
        let date = date_of(day).ok_or("no date")?;
        let written = format!(in rt.alloc(); "{date}")?;
        assert!(rt; written.as_str() == text, "{}", text);
    }
    assert!(rt; date_of(0).is_none() && date_of(3654).is_none());
    Ok(())
}

#[test]
fn months_end(rt: HostRuntime) {
    for (month, last) in [
        (0, 31),
        (1, 60),
        (11, 366),
        (13, 425),
        (118, 3622),
        (119, 3653),
    ] {
        assert_eq!(rt; last_of(month), Some(last));
        assert_eq!(rt; month_of(last), Some(month));
    }
    assert_eq!(rt; month_of(32), Some(1));
    assert!(rt; last_of(120).is_none() && month_of(0).is_none() && month_of(3654).is_none());
}
