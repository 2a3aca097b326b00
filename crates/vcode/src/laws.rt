//! What is proved of the meaning, each as the contract of a function that does nothing.
ghost use Rattle.vcode.specs.Prelude.{Examples, PassesCompose, PlacingStays, VirtualPassesStay, WordsAreRead};

/// What the definitions give for some small codes.
pub fn examples_are_computed()
    ensures { Examples }
{}

/// A word is read as it was given, whichever class it was written in.
pub fn words_are_read()
    ensures { WordsAreRead }
{}

/// A pass on virtual code that keeps a function's code gives code of the function.
pub fn virtual_passes_stay()
    ensures { VirtualPassesStay }
{}

/// Location code that keeps a function's virtual code is the function's code.
pub fn placing_stays()
    ensures { PlacingStays }
{}

/// Of two passes on virtual code, one after the other keeps what both keep.
pub fn passes_compose()
    ensures { PassesCompose }
{}
