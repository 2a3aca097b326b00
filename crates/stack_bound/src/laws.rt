//! What bounds are good for, each as the contract of a function that does nothing.
ghost use Rattle.stack_bound.specs.Bounds.{BoundsAreEnough, EnoughStays};

/// Where bounds are right, and `main` has one, that much stack is enough for every run.
pub fn bounds_are_enough()
    ensures { BoundsAreEnough }
{}

/// Where so much stack is enough as every run has, no run ends for want of it.
pub fn enough_stays()
    ensures { EnoughStays }
{}
