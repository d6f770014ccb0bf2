// Booking at a place of a lent table.
ghost use Rattle.amounts.specs.Tables.{Booked, rows_of};

use crate::row::{Fault, Row};

// Adds more at a place of a lent table; a refused booking writes nothing.
pub fn book<const N: usize, const LIMIT: u64>(
    table: &mut [Row<N, LIMIT>],
    at: usize,
    more: &[i64; N],
) -> Result<(), Fault<LIMIT>>
    ensures { Booked LIMIT (rows_of N LIMIT table.old) at more.now result (rows_of N LIMIT table.new) }
{
    // Kept: tried; the proof did not close: after a slice's `get_mut` nothing is known of its elements.
    let row = table.get(at).ok_or(Fault::NoPlace)?;
    table[at] = row.plus(more)?;
    Ok(())
}
