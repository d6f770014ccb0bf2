// The EGD rule: the edges lie 55 thousandths of a term's volume on either side of 0.
ghost use Rattle.std.specs.Prelude.{◌≡◌, pos};
ghost use Rattle.balancing.specs.Rules.{egd_band, egd_edge};
ghost use Rattle.std.proofs.Common.{arith, rules};
ghost use Rattle.std.proofs.lemmas.Int.{ints};
ghost use Rattle.balancing.specs.Bounds.{egd_most};

use crate::edges::Edges;
use crate::extent::Extent;
use crate::rule::BalancingRule;

#[derive(Clone, Copy, Debug, PartialEq, Eq)]
pub struct Egd;

impl BalancingRule for Egd {
    ghost band = { λ _ mdv days. egd_band mdv days };

    ghost sound = { λ s mdv days.
        let h = egd_most mdv days in
        (Prim.grind (arith, ints), Prim.grind (arith, ints), Prim.grind (arith, ints)) };

    ghost outside = { Prim.search rules };

    fn edges(&self, extent: Extent) -> Edges {
        let edge = edge(extent);
        Edges {
            lower: -edge,
            upper: edge,
        }
    }
}

// How far the edges lie from 0.
fn edge(extent: Extent) -> i32
    ensures { result ≡ pos (egd_edge extent.mdv extent.days) }
{
    let volume = extent.volume().unwrap_or(0);
    (u64::from(volume) * 55 / 1_000) as i32
}
