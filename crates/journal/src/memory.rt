// The answer memory: how long an answer is, and writing it.
ghost use Rattle.std.specs.Prelude.{◌≡◌, ◌+◌, ◌≤◌, ◌++◌, length, take, drop};
ghost use Rattle.book.specs.Meanings.{Meaning};
ghost use Rattle.book.specs.Rulings.{outcome};
ghost use Rattle.book.specs.Statement.{statement_ruling};
ghost use Rattle.book.specs.Step.{step};
ghost use Rattle.tables.specs.View.{view};
ghost use Rattle.answers.specs.Writing.{answer_words};

use calls::Call;
use ledger::Ledger;

// The words of the answer that a call will get.
pub(crate) fn answer_len<Z>(ledger: &Ledger<Z>, call: &Call) -> usize
    ensures { (m : Meaning) → result ≡ length (answer_words (step m (view ledger.now.tables) call.now).answer) }
{
    match call {
        Call::Statement { term } => statement_len(ledger, *term),
        _ => 2,
    }
}

// Eighteen for a statement of a term that is there, else two.
fn statement_len<Z>(ledger: &Ledger<Z>, term: u32) -> usize
    ensures { result ≡ length
        (answer_words (outcome (view ledger.now.tables) (statement_ruling (view ledger.now.tables) term)).answer) }
{
    if ledger.has_term(term) { 18 } else { 2 }
}

// Writes an answer's words into the memory from a place on.
pub(crate) fn put(answers: &mut [u32], at: usize, words: &[u32])
    requires { at + length words.now ≤ length answers.old }
    ensures { answers.new ≡ take at answers.old ++ (words.now ++ drop (at + length words.now) answers.old) }
{
    answers[at..at + words.len()].copy_from_slice(words);
}
