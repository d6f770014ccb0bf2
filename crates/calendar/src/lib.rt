// The calendar from 1 January 2024, day 1, to 31 December 2033, day 3,653: days, months and dates.
#![tactic(auto)]

mod dates;
mod days;
mod months;

pub use dates::{Date, date_of};
pub use days::{LAST_DAY, MONTH_COUNT};
pub use months::{last_of, month_of};
