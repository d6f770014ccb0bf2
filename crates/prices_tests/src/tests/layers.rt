// Layers over ends and over layers, and the zones' sources.
use crate::tests::figures::daily;
use crate::{reference, share_of_daily, toll_over_share};
use prices::{Lack, Point, PriceSource, Reference, Share, Span, Toll, Tolls};
use std::test::Fail;
use zones::{egd_excess, egd_overrun, egd_shortage, north_price};

const TOLLS: Tolls = Tolls {
    western: -1_000_000,
    dawn: 7,
    ontario: 1_000_000,
};

#[test]
fn layers_over_layers(rt: HostRuntime) -> Result<(), Fail> {
    let span = Span::new(1, 2)?;
    let end = Reference::new(100_001)?;
    assert_eq!(rt;
        Share::new(80, Share::new(120, end)?)?.price(Point::Dawn, span),
        Ok(96_001)
    );
    assert_eq!(rt;
        Share::new(120, Toll::new(TOLLS, end)?)?.price(Point::Dawn, span),
        Ok(120_010)
    );
    assert_eq!(rt;
        Toll::new(TOLLS, Share::new(120, end)?)?.price(Point::Dawn, span),
        Ok(120_008)
    );
    assert_eq!(rt;
        Toll::new(TOLLS, Toll::new(TOLLS, end)?)?.price(Point::Dawn, span),
        Ok(100_015)
    );
    let top = Reference::new(10_000_000)?;
    assert_eq!(rt;
        Share::new(300, top)?.price(Point::Dawn, span),
        Ok(10_000_000)
    );
    assert_eq!(rt;
        Toll::new(TOLLS, top)?.price(Point::Ontario, span),
        Ok(10_000_000)
    );
    assert_eq!(rt; Toll::new(TOLLS, end)?.price(Point::Western, span), Ok(0));
    Ok(())
}

#[test]
fn layers_over_a_list(rt: HostRuntime) -> Result<(), Fail> {
    let source = Toll::new(TOLLS, Share::new(50, daily(rt.alloc())?)?)?;
    assert_eq!(rt; source.price(Point::Dawn, Span::new(1, 3)?), Ok(50_008));
    let overrun = egd_overrun(2, vec![in rt.alloc(); 100_000, 100_001, 100_001]?)?;
    assert_eq!(rt;
        share_of_daily(&overrun, Point::Western, Span::new(2, 4)?),
        Ok(150_002)
    );
    assert_eq!(rt;
        share_of_daily(&overrun, Point::Western, Span::new(2, 6)?),
        Err(Lack { day: 5 })
    );
    Ok(())
}

#[test]
fn zones_have_their_prices(rt: HostRuntime) -> Result<(), Fail> {
    let shortage = egd_shortage(vec![in rt.alloc(); 100_001, 1_000]?)?;
    let excess = egd_excess(vec![in rt.alloc(); 100_001, 1_000]?)?;
    let north = north_price(123_456)?;
    let span = Span::new(1, 31)?;
    let low = Span::new(32, 60)?;
    let past = Span::new(60, 70)?;
    let figures = [
        (Point::Western, 120_001, 21_930, 0),
        (Point::Dawn, 168_652, 70_581, 0),
        (Point::Ontario, 178_072, 80_001, 800),
    ];
    for (point, short, over, least) in figures {
        assert_eq!(rt; toll_over_share(&shortage, point, span), Ok(short));
        assert_eq!(rt; toll_over_share(&excess, point, span), Ok(over));
        assert_eq!(rt; toll_over_share(&excess, point, low), Ok(least));
        assert_eq!(rt;
            toll_over_share(&shortage, point, past),
            Err(Lack { day: 61 })
        );
        assert_eq!(rt; reference(&north, point, past), Ok(123_456));
    }
    Ok(())
}
