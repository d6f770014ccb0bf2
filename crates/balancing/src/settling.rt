// The settling of a term's balance by a rule.
ghost use Rattle.balancing.specs.Bills.{Split};
ghost use Rattle.balancing.specs.Worked.{WorkedEdges};

use crate::extent::Extent;
use crate::rule::BalancingRule;

// The volumes carried and billed of a balance, by the rule's edges for the term.
// Kept: a rule of the project needs it: the two volumes stay a pair.
pub fn settle<R: BalancingRule>(rule: &R, extent: Extent, balance: i32) -> (i32, i64)
    ensures split { Split (R.band rule.now extent.mdv extent.days) balance result.0 result.1 }
    ensures worked { WorkedEdges }
{
    rule.edges(extent).split(balance)
}
