//! What is proved of calls in place, as the contract of a function that does nothing.
ghost use Rattle.inlining.specs.Laws.{CallsInPlaceKeep};

/// Code with a call in place runs as the code with the call.
pub fn calls_in_place_keep()
    ensures { CallsInPlaceKeep }
{}
