// The theorems of the answers' codec: each holds of every answer and of all words.
ghost use Rattle.answers.specs.Laws.{AnswersAreCounted, AnswerReturns, AnswersReturn, AnswerWordsReturn};

// Answers to words and back, and words to answers and back.
pub fn answers_stand()
    ensures counted { AnswersAreCounted }
    ensures answer { AnswerReturns }
    ensures answers { AnswersReturn }
    ensures words { AnswerWordsReturn }
{}
