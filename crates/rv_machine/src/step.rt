//! One step, with every stop.

ghost use Rattle.std.specs.Prelude.{◌≡◌, ◌<◌, ◌≤◌};
ghost use Rattle.rv_isa.specs.Prelude.{load_size, store_size};

use crate::access::{Access, allowed, number, put_out, set_bytes};
use crate::machine::Machine;
use crate::ram::Ram;
use crate::stop::Stop;
use rv_isa::arithmetic::{load_value, moved};
use rv_isa::decode::decode;
use rv_isa::{Fault, Instr, LoadOp, Register, StoreOp, abi};
use std::alloc::AllocError;

const FIRST_ARGUMENT: Register = Register {
    number: abi::FIRST_ARGUMENT,
};

const SECOND_ARGUMENT: Register = Register {
    number: abi::SECOND_ARGUMENT,
};

const THIRD_ARGUMENT: Register = Register {
    number: abi::THIRD_ARGUMENT,
};

const SYSTEM_CALL: Register = Register {
    number: abi::SYSTEM_CALL,
};

const WRITE: u64 = abi::WRITE as u64;

const EXIT: u64 = abi::EXIT as u64;

const OUTPUT: u64 = abi::STANDARD_OUTPUT as u64;

/// How many bytes a load reads.
fn load_size(op: LoadOp) -> u64
    ensures value { result ≡ load_size op }
    ensures some { 0 < result }
    ensures at_most { result ≤ 8 }
{
    match op {
        LoadOp::Lb | LoadOp::Lbu => 1,
        LoadOp::Lh | LoadOp::Lhu => 2,
        LoadOp::Lw | LoadOp::Lwu => 4,
        LoadOp::Ld => 8,
    }
}

/// How many bytes a store writes.
fn store_size(op: StoreOp) -> u64
    ensures value { result ≡ store_size op }
    ensures some { 0 < result }
{
    match op {
        StoreOp::Sb => 1,
        StoreOp::Sh => 2,
        StoreOp::Sw => 4,
        StoreOp::Sd => 8,
    }
}

impl<R: Ram> Machine<R> {
    ghost use Rattle.std.specs.Prelude.{◌≡◌, ◌%◌, ◌^◌, ◌<◌, ◌==◌, ◌≢◌, true, Ok, Err};
    ghost use Rattle.rv_isa.specs.State.{a0, a2, register};
    ghost use Rattle.rv_isa.specs.Step.{act, environment_call, load, step, store, write_call};
    ghost use Rattle.rv_machine.specs.Entries.{view};
    ghost use Rattle.rv_machine.specs.Steps.{Gives, MayWant, StepMayWant};

    /// Runs the instruction at pc. Where it stops the machine, nothing has changed.
    ///
    /// It stops for memory only where the instruction is a store and the memory refuses, or calls `write` with descriptor 1 and some bytes, and only where what it
    /// accesses may be accessed: with memory enough the step goes on.
    #[inline(never)]
    pub fn step(&mut self) -> Result<(), Stop>
        ensures gives { Gives (step (view ⟦<R as Ram>⟧ self.old)) result (view ⟦<R as Ram>⟧ self.old) (view ⟦<R as Ram>⟧ self.new) }
        ensures memory { result ≡ Err Stop.Memory → StepMayWant R.refuses (view ⟦<R as Ram>⟧ self.old) }
    {
        if !allowed(&self.ram, Access::Execute, self.pc, 4) {
            return Err(Stop::Fault(Fault::Fetch, self.pc));
        }
        let word = number(&self.ram, self.pc, 4) as u32;
        match decode(word) {
            Some(instr) => self.act(instr),
            None => Err(Stop::Fault(Fault::UnknownInstruction, self.pc)),
        }
    }

    /// Does an instruction, or stops with nothing changed.
    fn act(&mut self, instr: Instr) -> Result<(), Stop>
        ensures gives { Gives (act instr (view ⟦<R as Ram>⟧ self.old)) result (view ⟦<R as Ram>⟧ self.old) (view ⟦<R as Ram>⟧ self.new) }
        ensures memory { result ≡ Err Stop.Memory → MayWant R.refuses instr (view ⟦<R as Ram>⟧ self.old) }
    {
        if self.act_at_once(instr) {
            return Ok(());
        }
        match instr {
            Instr::Load {
                op,
                rd,
                rs1,
                offset,
            } => {
                let at = moved(self.register(rs1), i32::from(offset.value));
                self.load_by_bytes(op, rd, at)
            }
            Instr::Store {
                op,
                rs1,
                rs2,
                offset,
            } => {
                let at = moved(self.register(rs1), i32::from(offset.value));
                let value = self.register(rs2);
                self.store_by_bytes(op, value, at)
            }
            Instr::Ecall => self.environment_call(),
            Instr::Ebreak => Err(Stop::Break),
            Instr::Jal { .. } | Instr::Jalr { .. } | Instr::Branch { .. } => {
                Err(Stop::Fault(Fault::Fetch, self.pc))
            }
            _ => unreachable!(),
        }
    }

    fn load_by_bytes(&mut self, op: LoadOp, rd: Register, at: u64) -> Result<(), Stop>
        ensures gives { Gives (load (view ⟦<R as Ram>⟧ self.old) op rd at) result (view ⟦<R as Ram>⟧ self.old) (view ⟦<R as Ram>⟧ self.new) }
        ensures memory { result ≢ Err Stop.Memory }
    {
        let size = load_size(op);
        if !allowed(&self.ram, Access::Read, at, size) {
            return Err(Stop::Fault(Fault::Load, self.pc));
        }
        let n = number(&self.ram, at, size);
        self.put(rd, load_value(op, n));
        Ok(())
    }

    fn store_by_bytes(&mut self, op: StoreOp, value: u64, at: u64) -> Result<(), Stop>
        ensures gives { Gives (store (view ⟦<R as Ram>⟧ self.old) op value at) result (view ⟦<R as Ram>⟧ self.old) (view ⟦<R as Ram>⟧ self.new) }
        ensures memory { result ≡ Err Stop.Memory → R.refuses ≡ true }
    {
        let size = store_size(op);
        if !allowed(&self.ram, Access::Write, at, size) {
            return Err(Stop::Fault(Fault::Store, self.pc));
        }
        match self.ram.ready(at, size) {
            Ok(()) => {
                set_bytes(&mut self.ram, at, size, value);
                self.pc = self.pc.wrapping_add(4);
                Ok(())
            }
            Err(_) => Err(Stop::Memory),
        }
    }

    /// A system call, by the number in x17.
    fn environment_call(&mut self) -> Result<(), Stop>
        ensures gives { Gives (environment_call (view ⟦<R as Ram>⟧ self.old)) result (view ⟦<R as Ram>⟧ self.old) (view ⟦<R as Ram>⟧ self.new) }
        ensures memory { result ≡ Err Stop.Memory → MayWant R.refuses Instr.Ecall (view ⟦<R as Ram>⟧ self.old) }
    {
        let call = self.register(SYSTEM_CALL);
        if call == WRITE {
            self.write_call()
        } else if call == EXIT {
            Err(Stop::Exit((self.register(FIRST_ARGUMENT) % 256) as u8))
        } else {
            Err(Stop::Fault(Fault::SystemCall, self.pc))
        }
    }

    /// `write`: puts out the bytes at x11, as many as x12 says.
    fn write_call(&mut self) -> Result<(), Stop>
        ensures gives { Gives (write_call (view ⟦<R as Ram>⟧ self.old)) result (view ⟦<R as Ram>⟧ self.old) (view ⟦<R as Ram>⟧ self.new) }
        ensures descriptor { result ≡ Err Stop.Memory → register (view ⟦<R as Ram>⟧ self.old) a0 % 2 ^ 32 ≡ 1 }
        ensures count { result ≡ Err Stop.Memory → 0 < register (view ⟦<R as Ram>⟧ self.old) a2 }
    {
        if self.register(FIRST_ARGUMENT) % 0x1_0000_0000 != OUTPUT {
            self.put(FIRST_ARGUMENT, abi::BAD_DESCRIPTOR);
            return Ok(());
        }
        let at = self.register(SECOND_ARGUMENT);
        let count = self.register(THIRD_ARGUMENT);
        if !allowed(&self.ram, Access::Read, at, count) {
            return Err(Stop::Fault(Fault::Load, self.pc));
        }
        match put_out(&self.ram, at, count, &mut self.output) {
            Ok(()) => {
                self.put(FIRST_ARGUMENT, count);
                Ok(())
            }
            Err(AllocError) => Err(Stop::Memory),
        }
    }
}
