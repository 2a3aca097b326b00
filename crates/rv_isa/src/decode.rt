//! From a word to its instruction.

ghost use Rattle.std.specs.Prelude.{◌≡◌, ◌+◌, ◌*◌, ◌/◌, ◌%◌, ◌^◌, ◌<◌, ◌↔◌};
ghost use Rattle.rv_isa.specs.Prelude.{word, part, signed, Instr};
ghost use Rattle.rv_isa.specs.Decoding.{
  amount_of,
  b_offset,
  base_op,
  base_opw,
  branch_op,
  candidate,
  i_immediate,
  imm_op,
  instruction_of,
  j_offset,
  load_op,
  multiply_op,
  multiply_opw,
  op_imm,
  op_imm_32,
  rd_of,
  reg_op,
  regw_op,
  right_shift_op,
  right_shiftw_op,
  rs1_of,
  rs2_of,
  s_immediate,
  store_op,
  system_of,
  upper_of,
  word_amount_of,
};

use crate::encode::encode;
use crate::instruction::{
    BranchOp, ImmOp, Instr, LoadOp, RegOp, RegWOp, ShiftOp, ShiftWOp, StoreOp,
};
use crate::ranges::{
    Amount, BranchOffset, Immediate, JumpOffset, Register, UpperField, WordAmount,
};

/// The instruction whose word in the encoding table is `bits`, or `None` where no instruction has that word.
///
/// Words with reserved bits set, hints outside the table and every `fence` but the most general one are unknown.
#[tactic(auto, unfolding(crate::specs::Decoding::instruction_of))]
pub fn decode(bits: u32) -> Option<Instr>
    ensures value { result ≡ instruction_of bits }
    ensures exact { (i : Instr) → (result ≡ Some i) ↔ (word i ≡ bits) }
{
    let instr = candidate(bits);
    if encode(instr) == bits {
        Some(instr)
    } else {
        None
    }
}

/// What `bits` is, if it is an instruction: reserved bits are not looked at.
#[tactic(auto, unfolding(crate::specs::Decoding::candidate_at))]
fn candidate(bits: u32) -> Instr
    ensures { result ≡ candidate bits }
{
    match bits % 0x80 {
        0x37 => Instr::Lui {
            rd: rd_of(bits),
            field: upper_of(bits),
        },
        0x17 => Instr::Auipc {
            rd: rd_of(bits),
            field: upper_of(bits),
        },
        0x6f => Instr::Jal {
            rd: rd_of(bits),
            offset: j_offset(bits),
        },
        0x67 => Instr::Jalr {
            rd: rd_of(bits),
            rs1: rs1_of(bits),
            offset: i_immediate(bits),
        },
        0x63 => Instr::Branch {
            op: branch_op(funct3_of(bits)),
            rs1: rs1_of(bits),
            rs2: rs2_of(bits),
            offset: b_offset(bits),
        },
        0x03 => Instr::Load {
            op: load_op(funct3_of(bits)),
            rd: rd_of(bits),
            rs1: rs1_of(bits),
            offset: i_immediate(bits),
        },
        0x23 => Instr::Store {
            op: store_op(funct3_of(bits)),
            rs1: rs1_of(bits),
            rs2: rs2_of(bits),
            offset: s_immediate(bits),
        },
        0x13 => op_imm(bits),
        0x1b => op_imm_32(bits),
        0x33 => Instr::Reg {
            op: reg_op(funct3_of(bits), funct7_of(bits)),
            rd: rd_of(bits),
            rs1: rs1_of(bits),
            rs2: rs2_of(bits),
        },
        0x3b => Instr::RegW {
            op: regw_op(funct3_of(bits), funct7_of(bits)),
            rd: rd_of(bits),
            rs1: rs1_of(bits),
            rs2: rs2_of(bits),
        },
        0x0f => Instr::Fence,
        _ => system(bits),
    }
}

/// `ecall` or `ebreak`.
fn system(bits: u32) -> Instr
    ensures { result ≡ system_of bits }
{
    if bits / 0x10_0000 % 32 == 0 {
        Instr::Ecall
    } else {
        Instr::Ebreak
    }
}

/// The operations on a register and an immediate of 12 bits or a shift amount of 6.
fn op_imm(bits: u32) -> Instr
    ensures { result ≡ op_imm bits (part bits 14 12) }
{
    let rd = rd_of(bits);
    let rs1 = rs1_of(bits);
    match funct3_of(bits) {
        1 => Instr::Shift {
            op: ShiftOp::Slli,
            rd,
            rs1,
            amount: amount_of(bits),
        },
        5 => Instr::Shift {
            op: if bits / 0x400_0000 % 0x40 == 0 {
                ShiftOp::Srli
            } else {
                ShiftOp::Srai
            },
            rd,
            rs1,
            amount: amount_of(bits),
        },
        funct3 => Instr::Imm {
            op: imm_op(funct3),
            rd,
            rs1,
            immediate: i_immediate(bits),
        },
    }
}

/// The same for 32 bits, with a shift amount of 5 bits.
fn op_imm_32(bits: u32) -> Instr
    ensures { result ≡ op_imm_32 bits (part bits 14 12) }
{
    let rd = rd_of(bits);
    let rs1 = rs1_of(bits);
    match funct3_of(bits) {
        1 => Instr::ShiftW {
            op: ShiftWOp::Slliw,
            rd,
            rs1,
            amount: word_amount_of(bits),
        },
        5 => Instr::ShiftW {
            op: if funct7_of(bits) == 0 {
                ShiftWOp::Srliw
            } else {
                ShiftWOp::Sraiw
            },
            rd,
            rs1,
            amount: word_amount_of(bits),
        },
        _ => Instr::Addiw {
            rd,
            rs1,
            immediate: i_immediate(bits),
        },
    }
}

fn funct3_of(bits: u32) -> u32
    ensures { result ≡ part bits 14 12 }
{
    bits / 0x1000 % 8
}

fn funct7_of(bits: u32) -> u32
    ensures { result ≡ part bits 31 25 }
{
    bits / 0x200_0000 % 0x80
}

fn rd_of(bits: u32) -> Register
    ensures { result ≡ rd_of bits }
{
    Register {
        number: (bits / 0x80 % 32) as u8,
    }
}

fn rs1_of(bits: u32) -> Register
    ensures { result ≡ rs1_of bits }
{
    Register {
        number: (bits / 0x8000 % 32) as u8,
    }
}

fn rs2_of(bits: u32) -> Register
    ensures { result ≡ rs2_of bits }
{
    Register {
        number: (bits / 0x10_0000 % 32) as u8,
    }
}

fn upper_of(bits: u32) -> UpperField
    ensures { result ≡ upper_of bits }
{
    UpperField {
        value: bits / 0x1000 % 0x10_0000,
    }
}

fn amount_of(bits: u32) -> Amount
    ensures { result ≡ amount_of bits }
{
    Amount {
        value: (bits / 0x10_0000 % 64) as u8,
    }
}

fn word_amount_of(bits: u32) -> WordAmount
    ensures { result ≡ word_amount_of bits }
{
    WordAmount {
        value: (bits / 0x10_0000 % 32) as u8,
    }
}

/// The number whose 12 bits in two's complement are `bits`.
fn signed12(bits: u32) -> i16
    requires { bits < 4096 }
    ensures { result ≡ signed 12 bits }
{
    let low = bits as i16;
    if low < 2048 { low } else { low - 4096 }
}

fn i_immediate(bits: u32) -> Immediate
    ensures { result ≡ i_immediate bits }
{
    Immediate {
        value: signed12(bits / 0x10_0000 % 0x1000),
    }
}

fn s_immediate(bits: u32) -> Immediate
    ensures { result ≡ s_immediate bits }
{
    Immediate {
        value: signed12(funct7_of(bits) * 32 + bits / 0x80 % 32),
    }
}

fn b_offset(bits: u32) -> BranchOffset
    ensures { result ≡ b_offset bits }
{
    let bit_12 = bits / 0x8000_0000 % 2;
    let bit_11 = bits / 0x80 % 2;
    let half = bit_12 * 2048 + bit_11 * 1024 + bits / 0x200_0000 % 64 * 16 + bits / 0x100 % 16;
    let offset = (half * 2) as i16;
    BranchOffset {
        value: if offset < 4096 { offset } else { offset - 8192 },
    }
}

fn j_offset(bits: u32) -> JumpOffset
    ensures { result ≡ j_offset bits }
{
    let bit_20 = bits / 0x8000_0000 % 2;
    let bit_11 = bits / 0x10_0000 % 2;
    let high = bit_20 * 0x8_0000 + bits / 0x1000 % 0x100 * 2048;
    let half = high + bit_11 * 1024 + bits / 0x20_0000 % 1024;
    let offset = (half * 2) as i32;
    JumpOffset {
        value: if offset < 0x10_0000 {
            offset
        } else {
            offset - 0x20_0000
        },
    }
}

fn branch_op(funct3: u32) -> BranchOp
    ensures { result ≡ branch_op funct3 }
{
    match funct3 {
        0 => BranchOp::Beq,
        1 => BranchOp::Bne,
        4 => BranchOp::Blt,
        5 => BranchOp::Bge,
        6 => BranchOp::Bltu,
        _ => BranchOp::Bgeu,
    }
}

fn load_op(funct3: u32) -> LoadOp
    ensures { result ≡ load_op funct3 }
{
    match funct3 {
        0 => LoadOp::Lb,
        1 => LoadOp::Lh,
        2 => LoadOp::Lw,
        3 => LoadOp::Ld,
        4 => LoadOp::Lbu,
        5 => LoadOp::Lhu,
        _ => LoadOp::Lwu,
    }
}

fn store_op(funct3: u32) -> StoreOp
    ensures { result ≡ store_op funct3 }
{
    match funct3 {
        0 => StoreOp::Sb,
        1 => StoreOp::Sh,
        2 => StoreOp::Sw,
        _ => StoreOp::Sd,
    }
}

fn imm_op(funct3: u32) -> ImmOp
    ensures { result ≡ imm_op funct3 }
{
    match funct3 {
        0 => ImmOp::Addi,
        2 => ImmOp::Slti,
        3 => ImmOp::Sltiu,
        4 => ImmOp::Xori,
        6 => ImmOp::Ori,
        _ => ImmOp::Andi,
    }
}

fn reg_op(funct3: u32, funct7: u32) -> RegOp
    ensures { result ≡ reg_op funct3 funct7 }
{
    match funct7 {
        0 => base_op(funct3),
        1 => multiply_op(funct3),
        _ => { if funct3 == 0 { RegOp::Sub } else { RegOp::Sra } }
    }
}

fn base_op(funct3: u32) -> RegOp
    ensures { result ≡ base_op funct3 }
{
    match funct3 {
        0 => RegOp::Add,
        1 => RegOp::Sll,
        2 => RegOp::Slt,
        3 => RegOp::Sltu,
        4 => RegOp::Xor,
        5 => RegOp::Srl,
        6 => RegOp::Or,
        _ => RegOp::And,
    }
}

fn multiply_op(funct3: u32) -> RegOp
    ensures { result ≡ multiply_op funct3 }
{
    match funct3 {
        0 => RegOp::Mul,
        1 => RegOp::Mulh,
        2 => RegOp::Mulhsu,
        3 => RegOp::Mulhu,
        4 => RegOp::Div,
        5 => RegOp::Divu,
        6 => RegOp::Rem,
        _ => RegOp::Remu,
    }
}

fn regw_op(funct3: u32, funct7: u32) -> RegWOp
    ensures { result ≡ regw_op funct3 funct7 }
{
    match funct7 {
        0 => base_opw(funct3),
        1 => multiply_opw(funct3),
        _ => {
            if funct3 == 0 {
                RegWOp::Subw
            } else {
                RegWOp::Sraw
            }
        }
    }
}

fn base_opw(funct3: u32) -> RegWOp
    ensures { result ≡ base_opw funct3 }
{
    match funct3 {
        0 => RegWOp::Addw,
        1 => RegWOp::Sllw,
        _ => RegWOp::Srlw,
    }
}

fn multiply_opw(funct3: u32) -> RegWOp
    ensures { result ≡ multiply_opw funct3 }
{
    match funct3 {
        0 => RegWOp::Mulw,
        4 => RegWOp::Divw,
        5 => RegWOp::Divuw,
        6 => RegWOp::Remw,
        _ => RegWOp::Remuw,
    }
}
