//! What is proved of the definitions, as the contract of a function that does nothing.
ghost use Rattle.commands.specs.Bounded.{StayingIsExecuted};
ghost use Rattle.commands.specs.Messages.{Examples};
ghost use Rattle.commands.specs.Verdicts.{ProgramsAreSound};

/// The lines of some failures.
pub fn examples_are_computed()
    ensures { Examples }
{}

/// Of texts that are a program no reason against it is true.
pub fn programs_are_sound()
    ensures { ProgramsAreSound }
{}

/// A program that stays in the stack is executed to its end: of no run of it is it open what the machine does, unless it becomes undefined.
pub fn staying_is_executed()
    ensures { StayingIsExecuted }
{}
