// The worked figures of the rules, in one table, shown from the definitions.
ghost use Rattle.zones.specs.Worked.{Worked};

// The worked figures stand.
pub fn figures_stand()
    ensures { Worked }
{}
