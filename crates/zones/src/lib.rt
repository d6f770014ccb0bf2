// The rate zones: the trait, a zone of a rule and three price sources, the sources of EGD and of North, and the worked
// figures.
#![tactic(auto)]

mod egd;
mod north;
mod not_made;
mod rate_zone;
mod sources;
mod worked;
mod zone;

pub use egd::{EgdZone, egd_zone};
pub use north::{NorthZone, north_zone};
pub use not_made::NotMade;
pub use rate_zone::RateZone;
pub use sources::{egd_excess, egd_overrun, egd_shortage, north_price};
pub use worked::figures_stand;
pub use zone::Zone;
