// The law of the answers: none has a figure that its words cannot hold.
ghost use Rattle.journal.specs.Laws.{AnswersFit};

// Every answer fits its words.
pub fn answers_stand()
    ensures { AnswersFit }
{}
