//! Sets of registers in one machine word, for a look over lines before a pass works.

/// Some of the registers with numbers below 128. A register with a higher number is in no such set, so whoever asks one has to be right whatever it says.
#[derive(Clone, Copy)]
pub struct LowRegisters {
    bits: u128,
}

impl LowRegisters {
    /// The set of no register.
    pub fn new() -> LowRegisters {
        LowRegisters { bits: 0 }
    }

    /// The set of this register alone, or of none.
    fn only(register: u32) -> LowRegisters {
        LowRegisters {
            bits: if register < 128 { 1u128 << register } else { 0 },
        }
    }

    /// With this register.
    pub fn with(self, register: u32) -> LowRegisters {
        self.joined(LowRegisters::only(register))
    }

    /// What is in one of the two.
    pub fn joined(self, others: LowRegisters) -> LowRegisters {
        LowRegisters {
            bits: self.bits | others.bits,
        }
    }

    /// What is in this set and not in the other.
    pub fn without(self, others: LowRegisters) -> LowRegisters {
        LowRegisters {
            bits: self.bits & !others.bits,
        }
    }

    /// Whether the register is in the set.
    pub fn contains(self, register: u32) -> bool {
        self.bits & LowRegisters::only(register).bits != 0
    }

    /// Whether no register is in the set.
    pub fn is_empty(self) -> bool {
        self.bits == 0
    }
}
