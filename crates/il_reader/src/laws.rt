//! Laws of trees, each the contract of a function that does nothing.

ghost use Rattle.il_reader.specs.Prelude.{Examples, OneTree};

/// A text has at most one tree.
pub fn one_tree()
    ensures { OneTree }
{}

/// The trees that some small texts have, and some texts that have none.
pub fn examples_are_computed()
    ensures { Examples }
{}
