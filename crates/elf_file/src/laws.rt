//! A law of what files load as, as the contract of a function that does nothing.

ghost use Rattle.elf_file.specs.Laws.{LoadsOnce};

/// A file loads as one executable at most.
pub fn loads_once()
    ensures { LoadsOnce }
{}
