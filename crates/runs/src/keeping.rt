// A refused call changes nothing, whatever its ruling.
ghost use Rattle.runs.specs.Keeping.{RulingsKeep};

// Every ruling keeps the state where it refuses.
pub fn rulings_stand()
    ensures { RulingsKeep }
{}
