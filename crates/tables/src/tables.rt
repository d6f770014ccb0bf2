// The tables: the day, the terms, and beside them their gas and their charge lines. All places are reserved.
ghost use Rattle.std.specs.Prelude.{◌≡◌, ◌≤◌, true, vec_len, vec_capacity};
ghost use Rattle.book.specs.Allowances.{allowed};
ghost use Rattle.book.specs.Limits.{term_places};
ghost use Rattle.calendar.specs.Days.{last_day};

use crate::term::Term;
use amounts::{Charges, Gas};
use book::Allowances;

#[derive(Debug, Drop)]
pub struct Tables {
    pub day: u32,
    pub allowances: Allowances,
    // Kept: a rule of the project needs it: one generic booking at a place of a lent table, for both kinds of amount.
    pub terms: Vec<Term>,
    pub gas: Vec<Gas>,
    pub lines: Vec<Charges>,
    ghost begun: { 1 ≤ day },
    ghost ends: { day ≤ last_day },
    ghost allowed: { allowed allowances ≡ true },
    ghost few_terms: { vec_len terms ≤ term_places },
    ghost gas_beside: { vec_len gas ≡ vec_len terms },
    ghost lines_beside: { vec_len lines ≡ vec_len terms },
    ghost term_room: { term_places ≤ vec_capacity terms },
    ghost gas_room: { term_places ≤ vec_capacity gas },
    ghost line_room: { term_places ≤ vec_capacity lines },
}
