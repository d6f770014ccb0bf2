// The call day.
ghost use Rattle.book.specs.Day.{day_ruling};
ghost use Rattle.book.specs.Rulings.{Ruled, figure};
ghost use Rattle.tables.specs.View.{view};

use calendar::LAST_DAY;
use calls::Refusal;
use tables::Tables;

// Turns to the next day and answers it.
pub fn turn(tables: &mut Tables) -> Result<u32, Refusal>
    ensures { Ruled figure (view tables.old) (day_ruling (view tables.old)) result (view tables.new) }
{
    if tables.day >= LAST_DAY {
        return Err(Refusal::LastDay);
    }
    tables.day += 1;
    Ok(tables.day)
}
