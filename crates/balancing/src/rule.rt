// The trait of balancing rules, with its meaning.
ghost use Rattle.std.specs.Prelude.{◌≡◌, ℕ, false};
ghost use Rattle.balancing.specs.Bands.{Band, Sound, zero_band};
ghost use Rattle.balancing.specs.Edges.{band_of};
ghost use Rattle.balancing.specs.Terms.{is_term};

use crate::edges::Edges;
use crate::extent::Extent;

pub trait BalancingRule {
    // What the rule means: for a term's MDV and days, a band.
    ghost band: { Self → ℕ → ℕ → Band };

    fn edges(&self, extent: Extent) -> Edges
        ensures { band_of result ≡ band self.now extent.mdv extent.days };

    // The lower edge does not lie above the upper one, and both lie within ±200,000,000.
    ghost sound: { (s : Self) (mdv days : ℕ) → Sound (band s mdv days) };

    // Outside a term's ranges both edges are 0.
    ghost outside: { (s : Self) (mdv days : ℕ) → is_term mdv days ≡ false → band s mdv days ≡ zero_band };
}
