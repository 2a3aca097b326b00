//! What is proved of code on bytes, as the contract of a function that does nothing.
ghost use Rattle.flat_code.specs.Examples.{Examples};
ghost use Rattle.flat_code.specs.Laws.{RegularIsKept};

/// Location code on bytes keeps the same code on blocks.
pub fn code_on_bytes_keeps()
    ensures { RegularIsKept }
{}

/// What the definitions give for some small codes, and that the premises of the law can hold together.
pub fn examples_are_computed()
    ensures { Examples }
{}
