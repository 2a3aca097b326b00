//! The words of jumps and branches.

ghost use Rattle.std.specs.Prelude.{◌≡◌, ◌+◌, ◌*◌, ◌-◌, ◌%◌, ◌^◌, ◌<◌, ◌≤◌, ◌++◌, OnOk, pos};
ghost use Rattle.rv_isa.specs.declared.abi.TheConstants.{JUMP_SCRATCH, ZERO};
ghost use Rattle.rv_isa.specs.Prelude.{word, branch_row, j_type, b_type, u_type, i_type};
ghost use Rattle.bits.specs.Words.{upper_field, lower_field};
ghost use Rattle.asm_layout.specs.Forms.{inverse, distance, distance_word, jump_words, branch_words, Fits, JumpFits};

use crate::reach::Reach;
use bits::split;
use rv_isa::encode::encode;
use rv_isa::{BranchOffset, BranchOp, Immediate, Instr, JumpOffset, Register, UpperField, abi};
use std::alloc::AllocError;

const ZERO: Register = Register { number: abi::ZERO };

/// The register that long jumps use.
const SCRATCH: Register = Register {
    number: abi::JUMP_SCRATCH,
};

fn inverse(op: BranchOp) -> BranchOp
    ensures { result ≡ inverse op }
{
    match op {
        BranchOp::Beq => BranchOp::Bne,
        BranchOp::Bne => BranchOp::Beq,
        BranchOp::Blt => BranchOp::Bge,
        BranchOp::Bge => BranchOp::Blt,
        BranchOp::Bltu => BranchOp::Bgeu,
        BranchOp::Bgeu => BranchOp::Bltu,
    }
}

/// The distance in bytes between two words.
fn distance(here: usize, there: usize) -> i32
    requires here { here < 2 ^ 28 + 1024 }
    requires there { there < 2 ^ 28 + 1024 }
    ensures { result ≡ distance here there }
{
    (4 * there) as i32 - (4 * here) as i32
}

/// The same modulo 2^32.
fn distance_word(here: usize, there: usize) -> u32
    requires here { here ≤ 2 ^ 28 }
    requires there { there < 2 ^ 28 }
    ensures { result ≡ distance_word here there }
{
    ((4 * there) as u32).wrapping_sub((4 * here) as u32)
}

#[tactic(auto, using(crate::proofs::Running::jump_at_least, crate::proofs::Running::jump_at_most, crate::proofs::Running::distance_even))]
fn near_jump(here: usize, there: usize) -> u32
    requires ahead { there ≤ here + 262143 }
    requires back { here ≤ there + 262144 }
    requires here { here ≤ 2 ^ 28 }
    requires there { there < 2 ^ 28 }
    ensures { result ≡ j_type 0x6f ZERO (distance here there) }
{
    encode(Instr::Jal {
        rd: ZERO,
        offset: JumpOffset {
            value: distance(here, there),
        },
    })
}

#[tactic(auto, using(crate::proofs::Running::branch_at_least, crate::proofs::Running::branch_at_most, crate::proofs::Running::distance_even))]
fn near_branch(op: BranchOp, rs1: Register, rs2: Register, here: usize, there: usize) -> u32
    requires ahead { there ≤ here + 1023 }
    requires back { here ≤ there + 1024 }
    requires here { here < 2 ^ 28 }
    ensures { result ≡ b_type 0x63 (branch_row op) rs1.number rs2.number (distance here there) }
{
    encode(Instr::Branch {
        op,
        rs1,
        rs2,
        offset: BranchOffset {
            value: distance(here, there) as i16,
        },
    })
}

/// The first word of a long jump: it leaves the upper half of the way in x31.
#[tactic(auto, using(crate::proofs::Running::upper_fits))]
fn far_first(distance: u32) -> u32
    ensures { result ≡ u_type 0x17 JUMP_SCRATCH (upper_field distance) }
{
    encode(Instr::Auipc {
        rd: SCRATCH,
        field: UpperField {
            value: split(distance).upper,
        },
    })
}

#[tactic(auto, using(crate::proofs::Running::lower_fits))]
fn far_second(distance: u32) -> u32
    ensures { result ≡ i_type 0x67 0 ZERO JUMP_SCRATCH (lower_field distance) }
{
    encode(Instr::Jalr {
        rd: ZERO,
        rs1: SCRATCH,
        offset: Immediate {
            value: split(distance).lower as i16,
        },
    })
}

/// Puts the words of a jump from `here` to `there` at the end.
pub fn push_jump(
    words: &mut Vec<u32>,
    reach: Reach,
    here: usize,
    there: usize,
) -> Result<(), AllocError>
    requires fits { JumpFits reach here there }
    requires here { here ≤ 2 ^ 28 }
    requires there { there < 2 ^ 28 }
    ensures { OnOk result (words.new.items ≡ words.old.items ++ jump_words reach here there) }
{
    match reach {
        Reach::Short | Reach::Middle => words.push(near_jump(here, there))?,
        Reach::Far => {
            let distance = distance_word(here, there);
            words.push(far_first(distance))?;
            words.push(far_second(distance))?;
        }
    }
    Ok(())
}

/// Puts the words of a branch from `here` to `there` at the end.
pub fn push_branch(
    words: &mut Vec<u32>,
    reach: Reach,
    op: BranchOp,
    rs1: Register,
    rs2: Register,
    here: usize,
    there: usize,
) -> Result<(), AllocError>
    requires fits { Fits reach here there }
    requires here { here < 2 ^ 28 }
    requires there { there < 2 ^ 28 }
    ensures { OnOk result (words.new.items ≡ words.old.items ++ branch_words reach op rs1 rs2 here there) }
{
    match reach {
        Reach::Short => words.push(near_branch(op, rs1, rs2, here, there))?,
        Reach::Middle => {
            words.push(near_branch(inverse(op), rs1, rs2, here, here + 2))?;
            push_jump(words, reach, here + 1, there)?;
        }
        Reach::Far => {
            words.push(near_branch(inverse(op), rs1, rs2, here, here + 3))?;
            push_jump(words, reach, here + 1, there)?;
        }
    }
    Ok(())
}
