// The split of a balance by a pair of edges.
ghost use Rattle.std.specs.Prelude.{◌≡◌};
ghost use Rattle.balancing.specs.Bills.{carried_of, Split};
ghost use Rattle.balancing.specs.Edges.{band_of};

use crate::edges::Edges;

impl Edges {
    // The volumes carried and billed of a balance.
    // Kept: a rule of the project needs it: the two volumes stay a pair.
    pub fn split(&self, balance: i32) -> (i32, i64)
        ensures { Split (band_of self.now) balance result.0 result.1 }
    {
        let carried = self.carried(balance);
        (carried, balance as i64 - carried as i64)
    }

    // The balance, or the nearer edge where it lies outside.
    fn carried(&self, balance: i32) -> i32
        ensures { result ≡ carried_of (band_of self.now) balance }
    {
        balance.clamp(self.lower, self.upper)
    }
}
