//! The instructions, by kinds: those of a kind share their operands, and an operation's name is its mnemonic.
//!
//! Unprivileged ISA manual, "RV32I Base Integer Instruction Set", "RV64I Base Integer Instruction Set" and
//! "\"M\" Extension for Integer Multiplication and Division".

use crate::ranges::{
    Amount, BranchOffset, Immediate, JumpOffset, Register, UpperField, WordAmount,
};

/// An instruction of RV64IM, with operands in range.
#[derive(Clone, Copy)]
pub enum Instr {
    /// `lui`: the field times 4096, with a sign.
    Lui {
        rd: Register,
        field: UpperField,
    },
    /// `auipc`: the same plus pc.
    Auipc {
        rd: Register,
        field: UpperField,
    },
    /// `jal`: jumps by the offset, and leaves the next address.
    Jal {
        rd: Register,
        offset: JumpOffset,
    },
    /// `jalr`: jumps to a register's address plus the offset.
    Jalr {
        rd: Register,
        rs1: Register,
        offset: Immediate,
    },
    /// A jump by the offset, taken where the comparison of rs1 and rs2 holds.
    Branch {
        op: BranchOp,
        rs1: Register,
        rs2: Register,
        offset: BranchOffset,
    },
    /// Reads memory at rs1 plus the offset.
    Load {
        op: LoadOp,
        rd: Register,
        rs1: Register,
        offset: Immediate,
    },
    /// Writes the low bytes of rs2 to memory at rs1 plus the offset.
    Store {
        op: StoreOp,
        rs1: Register,
        rs2: Register,
        offset: Immediate,
    },
    /// An operation on a register and an immediate.
    Imm {
        op: ImmOp,
        rd: Register,
        rs1: Register,
        immediate: Immediate,
    },
    /// `addiw`: a sum of 32 bits.
    Addiw {
        rd: Register,
        rs1: Register,
        immediate: Immediate,
    },
    /// A shift by a fixed amount.
    Shift {
        op: ShiftOp,
        rd: Register,
        rs1: Register,
        amount: Amount,
    },
    /// A shift of 32 bits by a fixed amount.
    ShiftW {
        op: ShiftWOp,
        rd: Register,
        rs1: Register,
        amount: WordAmount,
    },
    /// An operation on two registers.
    Reg {
        op: RegOp,
        rd: Register,
        rs1: Register,
        rs2: Register,
    },
    /// An operation of 32 bits on two registers.
    RegW {
        op: RegWOp,
        rd: Register,
        rs1: Register,
        rs2: Register,
    },
    /// `fence`, in its most general form: all accesses before, all accesses after.
    Fence,
    /// `ecall`: a call of the execution environment.
    Ecall,
    /// `ebreak`: a stop for a debugger.
    Ebreak,
}

/// What a branch compares.
#[derive(Clone, Copy)]
pub enum BranchOp {
    Beq,
    Bne,
    Blt,
    Bge,
    Bltu,
    Bgeu,
}

/// How many bytes a load reads, and whether it extends them by sign or by zeros.
#[derive(Clone, Copy, PartialEq, Eq)]
pub enum LoadOp {
    Lb,
    Lh,
    Lw,
    Ld,
    Lbu,
    Lhu,
    Lwu,
}

/// How many bytes a store writes.
#[derive(Clone, Copy)]
pub enum StoreOp {
    Sb,
    Sh,
    Sw,
    Sd,
}

/// Operations on a register and an immediate.
#[derive(Clone, Copy)]
pub enum ImmOp {
    Addi,
    Slti,
    Sltiu,
    Xori,
    Ori,
    Andi,
}

/// Shifts by a fixed amount.
#[derive(Clone, Copy)]
pub enum ShiftOp {
    Slli,
    Srli,
    Srai,
}

/// Shifts of 32 bits by a fixed amount.
#[derive(Clone, Copy)]
pub enum ShiftWOp {
    Slliw,
    Srliw,
    Sraiw,
}

/// Operations on two registers.
#[derive(Clone, Copy, PartialEq, Eq)]
pub enum RegOp {
    Add,
    Sub,
    Sll,
    Slt,
    Sltu,
    Xor,
    Srl,
    Sra,
    Or,
    And,
    Mul,
    Mulh,
    Mulhsu,
    Mulhu,
    Div,
    Divu,
    Rem,
    Remu,
}

/// Operations of 32 bits on two registers.
#[derive(Clone, Copy, PartialEq, Eq)]
pub enum RegWOp {
    Addw,
    Subw,
    Sllw,
    Srlw,
    Sraw,
    Mulw,
    Divw,
    Divuw,
    Remw,
    Remuw,
}
