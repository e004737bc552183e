//! The law of runs: what every run of calls keeps, that its calls fix its answers, and that every call is answered.
//! Each function here is a theorem: it does nothing, and its contract is what is proved.

#![tactic(auto)]

ghost use Rattle.law.specs.Law.{Lawful, QuietRoundsAreExact, AnswersFixedByCalls, EveryCallIsAnswered};
ghost use Rattle.law.specs.Cases.{TheLawSpeaksOfRuns};

/// What was collected is a front of the sequential run, GVT is safe and never falls, every buffer is accounted for,
/// and a collection tells what remains.
pub fn runs_are_lawful()
    ensures { Lawful }
{}

/// A round in which nothing but its reports is called sets GVT to exactly the earliest unsettled time; with nothing
/// unsettled, the whole run can be collected.
pub fn quiet_rounds_are_exact()
    ensures { QuietRoundsAreExact }
{}

/// No answer depends on which buffer of a lane a draw took.
pub fn calls_fix_their_answers()
    ensures { AnswersFixedByCalls }
{}

/// Every call can be made in every machine, and a list of calls has exactly one list of answers.
pub fn every_call_is_answered()
    ensures { EveryCallIsAnswered }
{}

/// There are proper worlds for both models over the lanes of both pools, and runs in them with rollbacks, an
/// annihilation, a round and collections.
pub fn the_law_speaks_of_runs()
    ensures { TheLawSpeaksOfRuns }
{}
