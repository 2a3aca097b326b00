//! What is proved of functions and programs in which temporaries are promoted, each as the contract of a function that does nothing.
ghost use Rattle.promote.specs.Laws.{LimitsStay, RulesStay};
ghost use Rattle.promote.specs.Programs.{MeaningStays, OutcomeStays};

/// A function that keeps the rules still keeps them.
pub fn rules_stay()
    ensures { RulesStay }
{}

/// A function within the limits is still within them, weighs as much as before, and needs no more stack.
pub fn limits_stay()
    ensures { LimitsStay }
{}

/// The call of `main` goes as before, with the same spent and the same end, for all argument words and turns at which it didn't become undefined or run out of stack.
pub fn outcome_stays()
    ensures { OutcomeStays }
{}

/// A program has the output and the end that it had, for all argument words and turns at which it didn't become undefined or run out of stack.
pub fn meaning_stays()
    ensures { MeaningStays }
{}
