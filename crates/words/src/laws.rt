// The theorems of the codec: each holds of every call and of all words.
ghost use Rattle.words.specs.Laws.{CallReturns, CallsReturn, WordsReturn, StopsAreExact};

// Calls to words and back.
pub fn calls_stand()
    ensures call { CallReturns }
    ensures calls { CallsReturn }
{}

// Words to calls and back.
pub fn journals_stand()
    ensures words { WordsReturn }
    ensures stops { StopsAreExact }
{}
