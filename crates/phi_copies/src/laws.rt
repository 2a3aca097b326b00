//! What is proved of lowered functions, each as the contract of a function that does nothing.
ghost use Rattle.phi_copies.specs.Laws.{GoodTextsAreLowered, LoweringKeeps};

/// The lowered function keeps what the function's body means, for all values of its text's global names.
pub fn lowering_keeps()
    ensures { LoweringKeeps }
{}

/// Each function of a good text is one that can be lowered.
pub fn good_texts_are_lowered()
    ensures { GoodTextsAreLowered }
{}
