//! What is proved of the code of frames, each as the contract of a function that does nothing.
ghost use Rattle.abi_frames.specs.Examples.{Examples, FramesAreLabelled, FramesAreSmall, FramesPerform, MarkedAreLabelled, MarkedPerform};

/// The labelled code of a function has at most 32 words for each unit of its weight, and 256.
pub fn frames_are_small()
    ensures { FramesAreSmall }
{}

/// The labelled code of a function performs what its code on bytes runs, wherever it stands.
pub fn frames_perform()
    ensures { FramesPerform }
{}

/// The labelled code of a function keeps the invariants of such code.
pub fn frames_are_labelled()
    ensures { FramesAreLabelled }
{}

/// Labelled code with marks performs what the function's code on bytes runs.
pub fn marked_perform()
    ensures { MarkedPerform }
{}

/// Such code keeps the invariants of labelled code, where it is short enough.
pub fn marked_are_labelled()
    ensures { MarkedAreLabelled }
{}

/// The premises of these laws hold of small functions.
pub fn example_is_code()
    ensures { Examples }
{}
