// Worked figures of the rules, established of the definitions that the code is proved against.
#![tactic(auto)]

ghost use Rattle.figures.specs.Figures.{WorkedFigures};

/// Its contract is the list of figures; it does nothing.
pub fn figures_hold()
    ensures { WorkedFigures }
{}
