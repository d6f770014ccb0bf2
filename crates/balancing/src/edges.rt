// A pair of edges, the lower one never above the upper one.
ghost use Rattle.std.specs.Prelude.{◌≡◌, pos, neg_ℤ, ◌≤ℤ◌, is_some, IfSome};
ghost use Rattle.amounts.specs.Limits.{gas_limit};
ghost use Rattle.balancing.specs.Bands.{is_band};

use amounts::GAS_LIMIT;

#[derive(Clone, Copy, Debug, PartialEq, Eq)]
pub struct Edges {
    pub lower: i32,
    pub upper: i32,
    ghost ordered: { lower ≤ℤ upper },
    ghost floor: { neg_ℤ (pos gas_limit) ≤ℤ lower },
    ghost ceiling: { upper ≤ℤ pos gas_limit },
}

impl Edges {
    // The edges of this pair, if it is one: the lower not above the upper, both within ±200,000,000.
    pub fn new(lower: i32, upper: i32) -> Option<Edges>
        ensures test { is_some result ≡ is_band lower upper }
        ensures given { IfSome result (λ e. (e.lower ≡ lower) × (e.upper ≡ upper)) }
    {
        if lower > upper || lower < -(GAS_LIMIT as i32) || upper > GAS_LIMIT as i32 {
            return None;
        }
        Some(Edges { lower, upper })
    }
}
