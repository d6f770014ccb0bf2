// The North rule: no balance is carried.
ghost use Rattle.balancing.specs.Rules.{north_band};
ghost use Rattle.std.proofs.Common.{rules};

use crate::edges::Edges;
use crate::extent::Extent;
use crate::rule::BalancingRule;

#[derive(Clone, Copy, Debug, PartialEq, Eq)]
pub struct North;

impl BalancingRule for North {
    ghost band = { λ _ mdv days. north_band mdv days };

    ghost sound = { Prim.search rules };

    ghost outside = { Prim.search rules };

    fn edges(&self, _extent: Extent) -> Edges {
        Edges { lower: 0, upper: 0 }
    }
}
