//! What is proved of liveness, as the contract of a function that does nothing.
ghost use Rattle.cfg_live.specs.Rows.{ClosedIsExact};

/// Sets that hold each register that is read or live behind, and no register without a path, are exact.
pub fn closed_is_exact()
    ensures { ClosedIsExact }
{}
