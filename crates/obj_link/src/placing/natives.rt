//! The words with which every program begins.

ghost use Rattle.std.specs.Prelude.{◌≡◌, ◌++◌, OnOk};
ghost use Rattle.bits.specs.Words.{upper_field, lower_field};
ghost use Rattle.rv_isa.specs.declared.abi.TheConstants.{FIRST_TEMPORARY};
ghost use Rattle.rv_isa.specs.Prelude.{i_type, u_type};
ghost use Rattle.obj_link.specs.Prelude.{start_words, write_words, exit_words, load_double, jump_to};

use bits::split;
use rv_isa::encode::encode;
use rv_isa::{ImmOp, Immediate, Instr, LoadOp, Register, UpperField, abi};
use std::alloc::AllocError;

const ZERO: Register = Register { number: abi::ZERO };

const RETURN_ADDRESS: Register = Register {
    number: abi::RETURN_ADDRESS,
};

const STACK_POINTER: Register = Register {
    number: abi::STACK_POINTER,
};

const TEMPORARY: Register = Register {
    number: abi::FIRST_TEMPORARY,
};

const FIRST_ARGUMENT: Register = Register {
    number: abi::FIRST_ARGUMENT,
};

const SECOND_ARGUMENT: Register = Register {
    number: abi::SECOND_ARGUMENT,
};

const SYSTEM_CALL: Register = Register {
    number: abi::SYSTEM_CALL,
};

/// The numbers of the system calls.
const WRITE: Immediate = Immediate {
    value: abi::WRITE as i16,
};

const EXIT: Immediate = Immediate {
    value: abi::EXIT as i16,
};

const NOTHING: Immediate = Immediate { value: 0 };

/// `ld x10, 0(x2)`.
fn count_of_words() -> u32
    ensures { result ≡ load_double 10 2 0 }
{
    encode(Instr::Load {
        op: LoadOp::Ld,
        rd: FIRST_ARGUMENT,
        rs1: STACK_POINTER,
        offset: NOTHING,
    })
}

fn add_immediate(rd: Register, rs1: Register, immediate: Immediate) -> u32
    ensures { result ≡ i_type 0x13 0 rd.number rs1.number immediate.value }
{
    encode(Instr::Imm {
        op: ImmOp::Addi,
        rd,
        rs1,
        immediate,
    })
}

fn jump_to(rd: Register, rs1: Register) -> u32
    ensures { result ≡ jump_to rd.number rs1.number }
{
    encode(Instr::Jalr {
        rd,
        rs1,
        offset: NOTHING,
    })
}

/// `lui` with the upper part of an address.
fn load_upper(address: u32) -> u32
    ensures { result ≡ u_type 0x37 FIRST_TEMPORARY (upper_field address) }
{
    encode(Instr::Lui {
        rd: TEMPORARY,
        field: UpperField {
            value: split(address).upper,
        },
    })
}

/// `addiw` with the lower part of an address, behind its upper part.
fn add_lower(address: u32) -> u32
    ensures { result ≡ i_type 0x1b 0 FIRST_TEMPORARY FIRST_TEMPORARY (lower_field address) }
{
    encode(Instr::Addiw {
        rd: TEMPORARY,
        rs1: TEMPORARY,
        immediate: Immediate {
            value: split(address).lower as i16,
        },
    })
}

/// Puts the start code at the end, which calls `main` at this address.
pub fn push_start(words: &mut Vec<u32>, main: u32) -> Result<(), AllocError>
    ensures { OnOk result (words.new.items ≡ words.old.items ++ start_words main) }
{
    words.extend_from_slice(&[
        count_of_words(),
        add_immediate(SECOND_ARGUMENT, STACK_POINTER, Immediate { value: 8 }),
        load_upper(main),
        add_lower(main),
        jump_to(RETURN_ADDRESS, TEMPORARY),
        add_immediate(SYSTEM_CALL, ZERO, EXIT),
        encode(Instr::Ecall),
    ])
}

/// Puts `write` and `exit` at the end.
pub fn push_natives(words: &mut Vec<u32>) -> Result<(), AllocError>
    ensures { OnOk result (words.new.items ≡ words.old.items ++ (write_words ++ exit_words)) }
{
    words.extend_from_slice(&[
        add_immediate(SYSTEM_CALL, ZERO, WRITE),
        encode(Instr::Ecall),
        jump_to(ZERO, RETURN_ADDRESS),
        add_immediate(SYSTEM_CALL, ZERO, EXIT),
        encode(Instr::Ecall),
    ])
}
