//! Laws of the machine's definitions, each as the contract of a function that does nothing.

ghost use Rattle.rv_isa.specs.Prelude.{Examples, AboveStays, BelowStays, OthersStay, RunsCompose, StepActs, StepKeeps, StepStays, StepsCome, StoredIsRead, WordsDecode};

/// The word of an instruction is decoded as that instruction.
pub fn words_decode()
    ensures { WordsDecode }
{}

/// Where an instruction's word stands at pc and can be executed, a step does what the instruction says.
pub fn step_acts()
    ensures { StepActs }
{}

/// Runs of the machine compose, and count their instructions exactly.
pub fn runs_compose()
    ensures step { StepsCome }
    ensures compose { RunsCompose }
{}

/// A stored number is read back.
pub fn stored_is_read()
    ensures { StoredIsRead }
{}

/// A store changes its own bytes alone.
pub fn others_stay()
    ensures below { BelowStays }
    ensures above { AboveStays }
    ensures passing { OthersStay }
{}

/// A step keeps numbers in range: pc and registers below 2^64, bytes below 256.
pub fn step_keeps()
    ensures { StepKeeps }
{}

/// No step changes permissions, or bytes that may not be written: code that may not be written stays.
pub fn step_stays()
    ensures { StepStays }
{}

/// What the definitions give in the manual's corner cases.
pub fn examples_are_computed()
    ensures { Examples }
{}
