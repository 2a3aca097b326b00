//! What is proved of the definitions, as the contract of a function that does nothing.
ghost use Rattle.command_line.specs.Examples.{Examples};

/// What some words ask for.
pub fn examples_are_computed()
    ensures { Examples }
{}
