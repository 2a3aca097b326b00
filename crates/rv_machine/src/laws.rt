//! A law of the machine's start, as the contract of a function that does nothing.

ghost use Rattle.rv_machine.specs.Steps.{MachineStarts};

/// The state that a machine starts in is one of the starts of its file: the one with zeros wherever a start is free.
pub fn machine_starts()
    ensures { MachineStarts }
{}
