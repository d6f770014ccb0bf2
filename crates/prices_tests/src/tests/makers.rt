// The bounds of each maker, on both sides.
use crate::tests::figures::rising;
use prices::{Daily, Monthly, Reference, Share, Span, Toll, Tolls};
use std::test::Fail;
use zones::{egd_excess, egd_overrun, egd_shortage, north_price};

const NONE: Tolls = Tolls {
    western: 0,
    dawn: 0,
    ontario: 0,
};

#[test]
fn bounds_of_figures(rt: HostRuntime) -> Result<(), Fail> {
    let spans = [
        (0, 1, false),
        (1, 1, true),
        (1, 3653, true),
        (3653, 3654, false),
        (2, 1, false),
    ];
    for (from, to, made) in spans {
        assert_eq!(rt; Span::new(from, to).is_ok(), made);
    }
    for (price, made) in [(0, true), (10_000_000, true), (10_000_001, false)] {
        assert_eq!(rt; Reference::new(price).is_ok(), made);
        assert_eq!(rt; north_price(price).is_ok(), made);
    }
    let end = Reference::new(1)?;
    for (percent, made) in [(0, false), (1, true), (300, true), (301, false)] {
        assert_eq!(rt; Share::new(percent, end).is_ok(), made);
    }
    let tolls = [
        (-1_000_001, false),
        (-1_000_000, true),
        (1_000_000, true),
        (1_000_001, false),
    ];
    for (toll, made) in tolls {
        for tolls in [
            Tolls {
                western: toll,
                ..NONE
            },
            Tolls { dawn: toll, ..NONE },
            Tolls {
                ontario: toll,
                ..NONE
            },
        ] {
            assert_eq!(rt; Toll::new(tolls, end).is_ok(), made);
        }
    }
    Ok(())
}

#[test]
fn bounds_of_lists(rt: HostRuntime) -> Result<(), Fail> {
    let lists = [
        (0, 0, false),
        (1, 3653, true),
        (1, 3654, false),
        (3653, 0, true),
        (3654, 0, false),
    ];
    for (start, n, made) in lists {
        assert_eq!(rt;
            Daily::new(start, rising(rt.alloc(), 0, 0, n)?).is_ok(),
            made
        );
        assert_eq!(rt;
            egd_overrun(start, rising(rt.alloc(), 0, 0, n)?).is_ok(),
            made
        );
    }
    for (n, made) in [(0, true), (120, true), (121, false)] {
        assert_eq!(rt; Monthly::new(rising(rt.alloc(), 0, 0, n)?).is_ok(), made);
        assert_eq!(rt; egd_shortage(rising(rt.alloc(), 0, 0, n)?).is_ok(), made);
        assert_eq!(rt; egd_excess(rising(rt.alloc(), 0, 0, n)?).is_ok(), made);
    }
    Ok(())
}
