//! The worked cases, as a theorem about the machine's definitions.

ghost use Rattle.machine.specs.Cases.{TheWorkedCasesHold};

/// A theorem: the eight worked cases hold of the definitions.
pub fn the_worked_cases_hold()
    ensures { TheWorkedCasesHold }
{}
