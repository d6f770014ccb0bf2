// Price sources: what a source means, and the ends and layers that sources are made of.
#![tactic(auto)]

mod by_point;
mod daily;
mod days;
mod entry;
mod laws;
mod limits;
mod monthly;
mod point;
mod reference;
mod refused;
mod share;
mod source;
mod span;
mod toll;

pub use by_point::{ByPoint, Tolls};
pub use daily::Daily;
pub use days::{DayPrices, mean};
pub use laws::laws_stand;
pub use limits::{PRICE_LIMIT, TOLL_LIMIT};
pub use monthly::Monthly;
pub use point::Point;
pub use reference::Reference;
pub use refused::OutOfRange;
pub use share::Share;
pub use source::{Lack, PriceSource};
pub use span::Span;
pub use toll::Toll;
