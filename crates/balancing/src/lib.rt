// Balancing: the edges that a balance is carried between, the rules that set them, and the split of a balance.
#![tactic(auto)]

mod edges;
mod egd;
mod extent;
mod limits;
mod north;
mod rule;
mod settling;
mod split;
#[cfg(test)]
mod tests;

pub use edges::Edges;
pub use egd::Egd;
pub use extent::Extent;
pub use limits::{MDV_LIMIT, TERM_DAYS};
pub use north::North;
pub use rule::BalancingRule;
pub use settling::settle;
