//! A machine: registers, a memory and the output.

use crate::access::is_mapped;
use crate::ram::Ram;
use crate::registers::Registers;
use rv_isa::{Permission, Register};

/// A machine over a memory of the kind `R`. What state it is in, `view` of `specs/Entries.antt` says.
#[derive(Drop)]
pub struct Machine<R: Ram> {
    pub(crate) pc: u64,
    pub(crate) registers: Registers,
    pub(crate) ram: R,
    pub(crate) output: Vec<u8>,
}

impl<R: Ram> Machine<R> {
    ghost use Rattle.std.specs.Prelude.{◌≡◌};
    ghost use Rattle.rv_isa.specs.State.{register, put};
    ghost use Rattle.rv_machine.specs.Entries.{view, mapped_byte};

    /// The address of the next instruction.
    pub fn pc(&self) -> u64
        ensures { result ≡ (view ⟦<R as Ram>⟧ self.now).pc }
    {
        self.pc
    }

    /// The value of a register; that of x0 is 0.
    #[inline(always)]
    pub fn register(&self, r: Register) -> u64
        ensures { result ≡ register (view ⟦<R as Ram>⟧ self.now) r }
    {
        self.registers.get(r)
    }

    /// What is allowed at an address.
    pub fn permission(&self, at: u64) -> Permission
        ensures { result ≡ (view ⟦<R as Ram>⟧ self.now).allows at }
    {
        self.ram.permission(at)
    }

    /// The byte at an address, or none where nothing is mapped, that is, nothing is allowed.
    pub fn byte(&self, at: u64) -> Option<u8>
        ensures { result ≡ mapped_byte (view ⟦<R as Ram>⟧ self.now) at }
    {
        if is_mapped(self.ram.permission(at)) {
            Some(self.ram.get(at))
        } else {
            None
        }
    }

    /// All that the program has put out since the start.
    pub fn output(&self) -> &[u8]
        ensures { result.now ≡ (view ⟦<R as Ram>⟧ self.now).output }
    {
        self.output.as_slice()
    }

    /// Leaves a value in a register, and goes on to the next instruction.
    #[inline(always)]
    pub(crate) fn put(&mut self, rd: Register, value: u64)
        ensures { view ⟦<R as Ram>⟧ self.new ≡ put (view ⟦<R as Ram>⟧ self.old) rd value }
    {
        self.registers.set(rd, value);
        self.pc = self.pc.wrapping_add(4);
    }
}
