// Tests of the rules' edges and of the split, at the ends of the ranges.
use crate::edges::Edges;
use crate::egd::Egd;
use crate::extent::Extent;
use crate::north::North;
use crate::rule::BalancingRule;
use crate::settling::settle;

fn extent(mdv: u32, days: u32) -> Extent {
    Extent { mdv, days }
}

#[test]
fn a_terms_mdv(rt: HostRuntime) {
    assert_eq!(rt; Egd.edges(extent(0, 366)).upper, 0);
    assert_eq!(rt; Egd.edges(extent(1, 366)).upper, 20);
    assert_eq!(rt; Egd.edges(extent(500_000, 366)).upper, 10_065_000);
    assert_eq!(rt; Egd.edges(extent(500_001, 366)).upper, 0);
}

#[test]
fn a_terms_days(rt: HostRuntime) {
    assert_eq!(rt; Egd.edges(extent(500_000, 0)).lower, 0);
    assert_eq!(rt; Egd.edges(extent(500_000, 1)).lower, -27_500);
    assert_eq!(rt; Egd.edges(extent(500_000, 366)).lower, -10_065_000);
    assert_eq!(rt; Egd.edges(extent(500_000, 367)).lower, 0);
}

#[test]
fn edges_in_order(rt: HostRuntime) {
    assert!(rt; Edges::new(5, 5).is_some());
    assert!(rt; Edges::new(6, 5).is_none());
    assert!(rt; Edges::new(-200_000_000, 200_000_000).is_some());
    assert!(rt; Edges::new(-200_000_001, 200_000_000).is_none());
    assert!(rt; Edges::new(-200_000_000, 200_000_001).is_none());
}

#[test]
fn the_largest_balances(rt: HostRuntime) {
    assert_eq!(rt;
        settle(&Egd, extent(500_000, 366), 200_000_000),
        (10_065_000, 189_935_000)
    );
    assert_eq!(rt;
        settle(&Egd, extent(500_000, 366), -200_000_000),
        (-10_065_000, -189_935_000)
    );
    assert_eq!(rt;
        settle(&North, extent(500_000, 366), -200_000_000),
        (0, -200_000_000)
    );
}
