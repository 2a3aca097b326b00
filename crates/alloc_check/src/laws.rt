//! What is proved of certificates, each as the contract of a function that does nothing.
ghost use Rattle.alloc_check.specs.Prelude.{EachHasOnePlace, OneMoveIsPaid, SoundKeeps, SlotsAreAccepted, SpillAllIsAccepted};

/// The code that a sound certificate makes, with its places and its moves, keeps the virtual code: with the same parameters and result, and with the same runs.
pub fn sound_certificates_keep()
    ensures { SoundKeeps }
{}

/// A certificate that has each register in the slot of its number everywhere, and that knows of each block's start what is wanted there, is accepted, and makes
/// the code that `spill_all` makes.
pub fn slots_are_accepted()
    ensures { SlotsAreAccepted }
{}

/// What `certificates::spill_all::slotted` answers for the live registers of a function is accepted, and makes the code that `spill_all` makes.
pub fn spill_all_is_accepted()
    ensures { SpillAllIsAccepted }
{}

/// An accepted certificate has for each point exactly one place for each register that the point reads or writes.
pub fn each_has_one_place()
    ensures { EachHasOnePlace }
{}

/// The weight of a call, and that of a jump, pays for one move before it too: 32 instructions for each unit.
pub fn one_move_is_paid()
    ensures { OneMoveIsPaid }
{}
