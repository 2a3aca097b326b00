//! The start of a program.

use crate::fill::set_all;
use crate::machine::Machine;
use crate::ram::Ram;
use crate::registers::Registers;
use crate::words::argument_bytes;
use elf_file::Loaded;
use obj_link::arguments::are_arguments;
use rv_isa::{Register, abi};
use std::alloc::Global;

/// Why a program was not started.
#[derive(Debug, Drop, PartialEq, Eq, thiserror::Error)]
pub enum StartError {
    /// There are too many argument words, they are too long, or one holds a zero: E8.
    #[error("the argument words pass a limit")]
    Arguments,
    /// There was no memory for the program's.
    #[error("out of memory")]
    Memory,
}

impl<R: Ram> Machine<R> {
    ghost use Rattle.std.specs.Prelude.{◌≡◌, ◌↔◌, false, Err, IfOk};
    ghost use Rattle.rv_machine.specs.Entries.{view};
    ghost use Rattle.rv_machine.specs.Steps.{start_state};
    ghost use Rattle.obj_link.specs.Arguments.{are_arguments};
    ghost use Rattle.rv_machine.specs.Words.{texts};

    /// The machine at the start of a program with these argument words: at its entry, with the stack pointer in x2 and the words above it. All other
    /// registers and all other bytes of the stack are 0, and nothing else is mapped.
    ///
    /// Refuses words outside their limits (see [`are_arguments`]), and else fails only for want of memory.
    pub fn start(alloc: Global, file: &Loaded, words: &[&[u8]]) -> Result<Machine<R>, StartError>
        ensures ok { IfOk result (λ m. view ⟦<R as Ram>⟧ m ≡ start_state file.now (texts words.now)) }
        ensures refused { (result ≡ Err StartError.Arguments) ↔ (are_arguments (texts words.now) ≡ false) }
    {
        if !are_arguments(words) {
            return Err(StartError::Arguments);
        }
        let Ok(arguments) = argument_bytes(alloc, words) else {
            return Err(StartError::Memory);
        };
        let bytes = arguments.as_slice();
        let count = bytes.len() as u64;
        let Ok(mut ram) = R::of(alloc, file, count) else {
            return Err(StartError::Memory);
        };
        match ram.ready(abi::STACK_TOP, count) {
            Ok(()) => {}
            Err(_) => return Err(StartError::Memory),
        }
        set_all(&mut ram, abi::STACK_TOP, bytes);
        let mut registers = Registers::new();
        registers.set(
            Register {
                number: abi::STACK_POINTER,
            },
            abi::STACK_TOP,
        );
        Ok(Machine {
            pc: file.entry(),
            registers,
            ram,
            output: Vec::new(alloc),
        })
    }
}
