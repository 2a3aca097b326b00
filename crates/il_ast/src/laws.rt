//! The laws of the meaning, each as the contract of a function that does nothing.
ghost use Rattle.il_ast.specs.Prelude.{Examples, EndsStay, OutputGrows, DepthIsEnough, TurnsAreSpent, OutputComesFirst};

/// An end other than `Turns`, and the output with it, is the same at every greater number of turns.
pub fn ends_stay()
    ensures { EndsStay }
{}

/// The output at fewer turns is a beginning of that at more.
pub fn output_grows()
    ensures { OutputGrows }
{}

/// The depth of calls that the meaning allows is enough: beyond the turns it changes nothing.
pub fn depth_is_enough()
    ensures { DepthIsEnough }
{}

/// A run that is out of turns has done them all.
pub fn turns_are_spent()
    ensures { TurnsAreSpent }
{}

/// What a run puts out before it becomes undefined or runs out of stack, it puts out while it goes on.
pub fn output_comes_first()
    ensures { OutputComesFirst }
{}

/// What the definitions give for some small programs.
pub fn examples_are_computed()
    ensures { Examples }
{}
