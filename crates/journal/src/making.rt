// Making one call, and its answer as words.
ghost use Rattle.std.specs.Prelude.{◌≡◌};
ghost use Rattle.answers.specs.Writing.{answer_words};
ghost use Rattle.book.specs.Step.{step};
ghost use Rattle.tables.specs.View.{view};
ghost use Rattle.words.specs.WordRows.{listed};

use answers::{Encoded, encode};
use calls::Call;
use ledger::Ledger;
use zones::RateZone;

// Makes a call and gives its answer's words; these, the day and the tables after it are the book's.
pub fn make<Z: RateZone>(ledger: &mut Ledger<Z>, call: Call) -> Encoded
    ensures words { listed result ≡
        answer_words (step (Z.means ledger.old.zone) (view ledger.old.tables) call).answer }
    ensures day { ledger.new.tables.day ≡
        (step (Z.means ledger.old.zone) (view ledger.old.tables) call).after.day }
    ensures tables { view ledger.new.tables ≡
        (step (Z.means ledger.old.zone) (view ledger.old.tables) call).after }
    ensures zone { ledger.new.zone ≡ ledger.old.zone }
{
    encode(&ledger.apply(call))
}
