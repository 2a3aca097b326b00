//! What is proved of selected code, each as the contract of a function that does nothing.
ghost use Rattle.select.specs.Laws.{LoweredIsTyped, SelectedIsCode, SelectedIsVirtual, SelectionKeeps};

/// The virtual code of a function without phis in which all fits keeps it, whatever its text's global names mean.
pub fn selection_keeps()
    ensures { SelectionKeeps }
{}

/// In a lowered function of a good text all fits.
pub fn lowered_is_typed()
    ensures { LoweredIsTyped }
{}

/// The virtual code of a lowered function of a good text keeps the invariants of such code, with a register for each temporary and each phi of the function.
pub fn selected_is_virtual()
    ensures { SelectedIsVirtual }
{}

/// The virtual code of a function of a good text is the function's: given arguments of its parameters' classes, it runs as the function's body, whatever its calls do, turn
/// for turn and for the same weight, and it weighs and takes no more than the function is counted for.
pub fn selected_is_code()
    ensures { SelectedIsCode }
{}
