//! From an instruction to its word.

ghost use Rattle.std.specs.Prelude.{◌≡◌, ◌+◌, ◌*◌, ◌/◌, ◌%◌, ◌^◌, ◌<◌};
ghost use Rattle.rv_isa.specs.Prelude.{branch_row, imm_row, load_row, reg_row, regw_row, shift_row, shiftw_row, store_row, word, b_type, i_type, j_type, joined, low_bits, s_type, u_type};

use crate::instruction::{
    BranchOp, ImmOp, Instr, LoadOp, RegOp, RegWOp, ShiftOp, ShiftWOp, StoreOp,
};
use crate::ranges::{BranchOffset, Immediate, JumpOffset, Register, UpperField};

/// The word of `instr` in the encoding table. Code stores it lowest byte first.
pub fn encode(instr: Instr) -> u32
    ensures { result ≡ word instr }
{
    match instr {
        Instr::Lui { rd, field } => u_type(0x37, rd, field),
        Instr::Auipc { rd, field } => u_type(0x17, rd, field),
        Instr::Jal { rd, offset } => j_type(0x6f, rd, offset),
        Instr::Jalr { rd, rs1, offset } => i_type(0x67, 0, rd, rs1, offset),
        Instr::Branch {
            op,
            rs1,
            rs2,
            offset,
        } => b_type(0x63, branch_row(op), rs1, rs2, offset),
        Instr::Load {
            op,
            rd,
            rs1,
            offset,
        } => i_type(0x03, load_row(op), rd, rs1, offset),
        Instr::Store {
            op,
            rs1,
            rs2,
            offset,
        } => s_type(0x23, store_row(op), rs1, rs2, offset),
        Instr::Imm {
            op,
            rd,
            rs1,
            immediate,
        } => i_type(0x13, imm_row(op), rd, rs1, immediate),
        Instr::Addiw { rd, rs1, immediate } => i_type(0x1b, 0, rd, rs1, immediate),
        Instr::Shift {
            op,
            rd,
            rs1,
            amount,
        } => {
            let (funct3, high) = shift_row(op);
            let funct7 = high * 2 + u32::from(amount.value / 32);
            r_type(0x13, funct3, funct7, rd, rs1, u32::from(amount.value % 32))
        }
        Instr::ShiftW {
            op,
            rd,
            rs1,
            amount,
        } => {
            let (funct3, funct7) = shiftw_row(op);
            r_type(0x1b, funct3, funct7, rd, rs1, u32::from(amount.value))
        }
        Instr::Reg { op, rd, rs1, rs2 } => {
            let (funct3, funct7) = reg_row(op);
            r_type(0x33, funct3, funct7, rd, rs1, u32::from(rs2.number))
        }
        Instr::RegW { op, rd, rs1, rs2 } => {
            let (funct3, funct7) = regw_row(op);
            r_type(0x3b, funct3, funct7, rd, rs1, u32::from(rs2.number))
        }
        Instr::Fence => 0x0ff0_000f,
        Instr::Ecall => 0x0000_0073,
        Instr::Ebreak => 0x0010_0073,
    }
}

/// The word with these fields.
fn joined(opcode: u32, rd: u32, funct3: u32, rs1: u32, rs2: u32, funct7: u32) -> u32
    requires opcode_fits { opcode < 128 }
    requires rd_fits { rd < 32 }
    requires funct3_fits { funct3 < 8 }
    requires rs1_fits { rs1 < 32 }
    requires rs2_fits { rs2 < 32 }
    requires funct7_fits { funct7 < 128 }
    ensures { result ≡ joined opcode rd funct3 rs1 rs2 funct7 }
{
    opcode + rd * 0x80 + funct3 * 0x1000 + rs1 * 0x8000 + rs2 * 0x10_0000 + funct7 * 0x200_0000
}

fn r_type(opcode: u32, funct3: u32, funct7: u32, rd: Register, rs1: Register, rs2: u32) -> u32
    requires opcode_fits { opcode < 128 }
    requires funct3_fits { funct3 < 8 }
    requires funct7_fits { funct7 < 128 }
    requires rs2_fits { rs2 < 32 }
    ensures { result ≡ joined opcode rd.number funct3 rs1.number rs2 funct7 }
{
    joined(
        opcode,
        u32::from(rd.number),
        funct3,
        u32::from(rs1.number),
        rs2,
        funct7,
    )
}

/// The low 12 bits of an immediate.
fn immediate_bits(immediate: Immediate) -> u32
    ensures value { result ≡ low_bits 12 immediate.value }
    ensures range { result < 4096 }
{
    i32::from(immediate.value).rem_euclid(4096).cast_unsigned()
}

fn i_type(opcode: u32, funct3: u32, rd: Register, rs1: Register, immediate: Immediate) -> u32
    requires opcode_fits { opcode < 128 }
    requires funct3_fits { funct3 < 8 }
    ensures { result ≡ i_type opcode funct3 rd.number rs1.number immediate.value }
{
    let bits = immediate_bits(immediate);
    let rd = u32::from(rd.number);
    joined(
        opcode,
        rd,
        funct3,
        u32::from(rs1.number),
        bits % 32,
        bits / 32,
    )
}

fn s_type(opcode: u32, funct3: u32, rs1: Register, rs2: Register, offset: Immediate) -> u32
    requires opcode_fits { opcode < 128 }
    requires funct3_fits { funct3 < 8 }
    ensures { result ≡ s_type opcode funct3 rs1.number rs2.number offset.value }
{
    let bits = immediate_bits(offset);
    let rs1 = u32::from(rs1.number);
    joined(
        opcode,
        bits % 32,
        funct3,
        rs1,
        u32::from(rs2.number),
        bits / 32,
    )
}

fn b_type(opcode: u32, funct3: u32, rs1: Register, rs2: Register, offset: BranchOffset) -> u32
    requires opcode_fits { opcode < 128 }
    requires funct3_fits { funct3 < 8 }
    ensures { result ≡ b_type opcode funct3 rs1.number rs2.number offset.value }
{
    let bits = i32::from(offset.value).rem_euclid(0x2000).cast_unsigned();
    let rd = bits / 2 % 16 * 2 + bits / 2048 % 2;
    let funct7 = bits / 4096 % 2 * 64 + bits / 32 % 64;
    joined(
        opcode,
        rd,
        funct3,
        u32::from(rs1.number),
        u32::from(rs2.number),
        funct7,
    )
}

fn u_type(opcode: u32, rd: Register, field: UpperField) -> u32
    requires { opcode < 128 }
    ensures { result ≡ u_type opcode rd.number field.value }
{
    let field = field.value;
    let rd = u32::from(rd.number);
    joined(
        opcode,
        rd,
        field % 8,
        field / 8 % 32,
        field / 256 % 32,
        field / 8192 % 128,
    )
}

fn j_type(opcode: u32, rd: Register, offset: JumpOffset) -> u32
    requires { opcode < 128 }
    ensures { result ≡ j_type opcode rd.number offset.value }
{
    let bits = offset.value.rem_euclid(0x20_0000).cast_unsigned();
    let rs2 = bits / 2 % 16 * 2 + bits / 2048 % 2;
    let funct7 = bits / 0x10_0000 % 2 * 64 + bits / 32 % 64;
    let rd = u32::from(rd.number);
    joined(
        opcode,
        rd,
        bits / 0x1000 % 8,
        bits / 0x8000 % 32,
        rs2,
        funct7,
    )
}

fn branch_row(op: BranchOp) -> u32
    ensures value { result ≡ branch_row op }
    ensures range { result < 8 }
{
    match op {
        BranchOp::Beq => 0,
        BranchOp::Bne => 1,
        BranchOp::Blt => 4,
        BranchOp::Bge => 5,
        BranchOp::Bltu => 6,
        BranchOp::Bgeu => 7,
    }
}

fn load_row(op: LoadOp) -> u32
    ensures value { result ≡ load_row op }
    ensures range { result < 8 }
{
    match op {
        LoadOp::Lb => 0,
        LoadOp::Lh => 1,
        LoadOp::Lw => 2,
        LoadOp::Ld => 3,
        LoadOp::Lbu => 4,
        LoadOp::Lhu => 5,
        LoadOp::Lwu => 6,
    }
}

fn store_row(op: StoreOp) -> u32
    ensures value { result ≡ store_row op }
    ensures range { result < 8 }
{
    match op {
        StoreOp::Sb => 0,
        StoreOp::Sh => 1,
        StoreOp::Sw => 2,
        StoreOp::Sd => 3,
    }
}

fn imm_row(op: ImmOp) -> u32
    ensures value { result ≡ imm_row op }
    ensures range { result < 8 }
{
    match op {
        ImmOp::Addi => 0,
        ImmOp::Slti => 2,
        ImmOp::Sltiu => 3,
        ImmOp::Xori => 4,
        ImmOp::Ori => 6,
        ImmOp::Andi => 7,
    }
}

fn shift_row(op: ShiftOp) -> (u32, u32)
    ensures value { result ≡ shift_row op }
    ensures funct3_range { result.0 < 8 }
    ensures high_range { result.1 < 64 }
{
    match op {
        ShiftOp::Slli => (1, 0),
        ShiftOp::Srli => (5, 0),
        ShiftOp::Srai => (5, 0x10),
    }
}

fn shiftw_row(op: ShiftWOp) -> (u32, u32)
    ensures value { result ≡ shiftw_row op }
    ensures funct3_range { result.0 < 8 }
    ensures funct7_range { result.1 < 128 }
{
    match op {
        ShiftWOp::Slliw => (1, 0),
        ShiftWOp::Srliw => (5, 0),
        ShiftWOp::Sraiw => (5, 0x20),
    }
}

fn reg_row(op: RegOp) -> (u32, u32)
    ensures value { result ≡ reg_row op }
    ensures funct3_range { result.0 < 8 }
    ensures funct7_range { result.1 < 128 }
{
    match op {
        RegOp::Add => (0, 0),
        RegOp::Sub => (0, 0x20),
        RegOp::Sll => (1, 0),
        RegOp::Slt => (2, 0),
        RegOp::Sltu => (3, 0),
        RegOp::Xor => (4, 0),
        RegOp::Srl => (5, 0),
        RegOp::Sra => (5, 0x20),
        RegOp::Or => (6, 0),
        RegOp::And => (7, 0),
        RegOp::Mul => (0, 1),
        RegOp::Mulh => (1, 1),
        RegOp::Mulhsu => (2, 1),
        RegOp::Mulhu => (3, 1),
        RegOp::Div => (4, 1),
        RegOp::Divu => (5, 1),
        RegOp::Rem => (6, 1),
        RegOp::Remu => (7, 1),
    }
}

fn regw_row(op: RegWOp) -> (u32, u32)
    ensures value { result ≡ regw_row op }
    ensures funct3_range { result.0 < 8 }
    ensures funct7_range { result.1 < 128 }
{
    match op {
        RegWOp::Addw => (0, 0),
        RegWOp::Subw => (0, 0x20),
        RegWOp::Sllw => (1, 0),
        RegWOp::Srlw => (5, 0),
        RegWOp::Sraw => (5, 0x20),
        RegWOp::Mulw => (0, 1),
        RegWOp::Divw => (4, 1),
        RegWOp::Divuw => (5, 1),
        RegWOp::Remw => (6, 1),
        RegWOp::Remuw => (7, 1),
    }
}
