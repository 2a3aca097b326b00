//! Instructions that wait for the address of a global.

ghost use Rattle.std.specs.Prelude.{◌≡◌};
ghost use Rattle.rv_isa.specs.Prelude.{word, upper_part, lower_part, jump_part, completed, relocated, of_global, named, filled_in};

use crate::abi;
use crate::arithmetic::moved;
use crate::encode::encode;
use crate::instruction::{ImmOp, Instr, LoadOp, StoreOp};
use crate::ranges::{Immediate, JumpOffset, Register, UpperField};
use bits::{low32, split};

/// An instruction without its immediate, which is a part of an address.
///
/// The upper part, in the field of `lui`, and the lower part, a signed immediate of 12 bits, together make the address.
#[derive(Clone, Copy)]
pub enum Partial {
    /// `lui`, with the upper part.
    Upper(Register),
    /// `addi`, with the lower part.
    Add {
        rd: Register,
        rs1: Register,
    },
    /// `jalr`, with the lower part.
    Jump {
        rd: Register,
        rs1: Register,
    },
    /// A load, with the lower part.
    Load {
        op: LoadOp,
        rd: Register,
        rs1: Register,
    },
    /// A store, with the lower part.
    Store {
        op: StoreOp,
        rs1: Register,
        rs2: Register,
    },
}

/// An instruction that takes a part of the address of a global, or of an address beyond it.
#[derive(Clone, Copy)]
pub struct Relocation {
    /// The instruction.
    pub instruction: Partial,
    /// The number of the global.
    pub global: usize,
    /// How many bytes beyond the global the address is.
    pub offset: Immediate,
}

/// What a word that waits for an address becomes.
#[derive(Clone, Copy)]
pub enum Filling {
    /// An instruction with a part of the address.
    Part(Relocation),
    /// `jal` to the global of this number, with the next address in x1. It reaches from 2^20 bytes back to 2^20 - 1 ahead.
    Call(usize),
}

fn upper_part(address: u64) -> UpperField
    ensures { result ≡ upper_part address }
{
    UpperField {
        value: split(low32(address)).upper,
    }
}

fn lower_part(address: u64) -> Immediate
    ensures { result ≡ lower_part address }
{
    Immediate {
        value: split(low32(address)).lower as i16,
    }
}

impl Partial {
    /// The instruction, with its part of this address.
    pub fn completed(self, address: u64) -> Instr
        ensures { result ≡ completed self address }
    {
        match self {
            Partial::Upper(rd) => Instr::Lui {
                rd,
                field: upper_part(address),
            },
            Partial::Add { rd, rs1 } => Instr::Imm {
                op: ImmOp::Addi,
                rd,
                rs1,
                immediate: lower_part(address),
            },
            Partial::Jump { rd, rs1 } => Instr::Jalr {
                rd,
                rs1,
                offset: lower_part(address),
            },
            Partial::Load { op, rd, rs1 } => Instr::Load {
                op,
                rd,
                rs1,
                offset: lower_part(address),
            },
            Partial::Store { op, rs1, rs2 } => Instr::Store {
                op,
                rs1,
                rs2,
                offset: lower_part(address),
            },
        }
    }
}

impl Relocation {
    /// An instruction with its part of the address of the global itself.
    pub fn of_global(instruction: Partial, global: usize) -> Relocation
        ensures { result ≡ of_global instruction global }
    {
        Relocation {
            instruction,
            global,
            offset: lower_part(0),
        }
    }

    /// The instruction, with the global at this address.
    pub fn relocated(self, global: u32) -> Instr
        ensures { result ≡ relocated self global }
    {
        let address = moved(u64::from(global), i32::from(self.offset.value));
        self.instruction.completed(address)
    }
}

/// The distance from one address to another, as far as the field of `jal` holds it.
fn jump_part(place: u64, address: u64) -> JumpOffset
    ensures { result ≡ jump_part place address }
{
    let offset = (address.wrapping_sub(place) / 2 % 0x10_0000 * 2) as i32;
    JumpOffset {
        value: if offset < 0x10_0000 {
            offset
        } else {
            offset - 0x20_0000
        },
    }
}

impl Filling {
    /// The number of the global.
    pub fn global(self) -> usize
        ensures { result ≡ named self }
    {
        match self {
            Filling::Part(relocation) => relocation.global,
            Filling::Call(global) => global,
        }
    }

    /// The word of the instruction at the address `place`, with the global at this address.
    pub fn word(self, place: u32, global: u32) -> u32
        ensures { result ≡ word (filled_in self place global) }
    {
        match self {
            Filling::Part(relocation) => encode(relocation.relocated(global)),
            Filling::Call(_) => encode(Instr::Jal {
                rd: Register {
                    number: abi::RETURN_ADDRESS,
                },
                offset: jump_part(u64::from(place), u64::from(global)),
            }),
        }
    }
}
