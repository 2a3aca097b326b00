//! The registers x0 to x31.

use rv_isa::Register;

/// The values of the 32 registers. x0 is 0, whatever stands in its place.
#[derive(Drop)]
pub struct Registers {
    values: [u64; 32],
}

impl Registers {
    ghost use Rattle.std.specs.Prelude.{◌≡◌, ◌==◌, if◌then◌else◌};
    ghost use Rattle.rv_isa.specs.State.{written};
    ghost use Rattle.rv_machine.specs.Registers.{HasZero, numbers, all_zero};

    /// Registers that are all 0.
    pub fn new() -> Registers
        ensures { numbers result ≡ all_zero }
    {
        Registers { values: [0; 32] }
    }

    /// The value of a register.
    #[inline(always)]
    pub fn get(&self, register: Register) -> u64
        ensures { result ≡ (if register.number == 0 then 0 else numbers self.now register.number) }
    {
        if register.number == 0 {
            0
        } else {
            self.values[usize::from(register.number)]
        }
    }

    /// The value of a register, where a 0 stands in the place of x0.
    #[inline(always)]
    pub fn read(&self, register: Register) -> u64
        requires { HasZero self.now }
        ensures { result ≡ (if register.number == 0 then 0 else numbers self.now register.number) }
    {
        self.values[usize::from(register.number)]
    }

    /// Gives a register a value; x0 stays 0, but the value stands in its place.
    #[inline(always)]
    pub fn set(&mut self, register: Register, value: u64)
        ensures { numbers self.new ≡ written (numbers self.old) register value }
    {
        self.values[usize::from(register.number)] = value;
    }

    /// Puts a 0 in the place of x0.
    #[inline(always)]
    pub fn clear_zero(&mut self)
        ensures same { numbers self.new ≡ numbers self.old }
        ensures zero { HasZero self.new }
    {
        self.values[0] = 0;
    }
}
