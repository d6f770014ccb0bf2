// Booking into a table of amounts: the table is lent, and keeps its places.
ghost use Rattle.std.specs.Prelude.{◌≡◌, vec_len, vec_capacity};
ghost use Rattle.amounts.specs.Tables.{Booked, rows_of};

use amounts::{Fault, Row};

// Adds more at a place of the table; a refused booking writes nothing.
#[tactic(auto, using(std::proofs::lemmas::List::with_items_is))]
pub fn enter<const N: usize, const LIMIT: u64>(
    table: &mut Vec<Row<N, LIMIT>>,
    at: usize,
    more: &[i64; N],
) -> Result<(), Fault<LIMIT>>
    ensures booked { Booked LIMIT (rows_of N LIMIT table.old.items) at more.now result
        (rows_of N LIMIT table.new.items) }
    ensures len { vec_len table.new ≡ vec_len table.old }
    ensures capacity { vec_capacity table.new ≡ vec_capacity table.old }
{
    amounts::book(table, at, more)
}
