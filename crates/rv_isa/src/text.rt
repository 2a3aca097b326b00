//! The text of an instruction, as a disassembler prints it.

ghost use Rattle.std.specs.Prelude.{◌≡◌, ◌++◌, codes, IfOk, Some, decimal, string_bytes};
ghost use Rattle.rv_isa.specs.Text.{
  address_text,
  branch_name,
  imm_name,
  immediate_text,
  jump_text,
  load_name,
  reg_name,
  register_text,
  registers_text,
  regw_name,
  shift_name,
  shift_text,
  shiftw_name,
  store_name,
  text_of,
  upper_text,
};

use crate::instruction::{
    BranchOp, ImmOp, Instr, LoadOp, RegOp, RegWOp, ShiftOp, ShiftWOp, StoreOp,
};
use crate::ranges::Register;
use std::alloc::{AllocError, Global};
use std::fmt;

/// Writes the register as `x0` to `x31`.
impl fmt::Display for Register {
    ghost output = { λ r. Some (register_text r) };

    fn fmt<W: fmt::Write>(&self, f: &mut fmt::Formatter<W>) -> fmt::Result {
        let number = self.number;
        write!(f, "x{number}")
    }
}

/// The text of `instr`: its mnemonic, then its operands. Numbers are decimal and signed, the field of `lui` and `auipc` unsigned.
///
/// Fails only for want of memory.
pub fn text(alloc: Global, instr: Instr) -> Result<String, AllocError>
    ensures { IfOk result (λ s. string_bytes s ≡ text_of instr) }
{
    match instr {
        Instr::Lui { rd, field } => upper(alloc, "lui", rd, field.value),
        Instr::Auipc { rd, field } => upper(alloc, "auipc", rd, field.value),
        Instr::Jal { rd, offset } => jump(alloc, rd, offset.value),
        Instr::Jalr { rd, rs1, offset } => address(alloc, "jalr", rd, rs1, offset.value),
        Instr::Branch {
            op,
            rs1,
            rs2,
            offset,
        } => immediate(alloc, branch_name(op), rs1, rs2, offset.value),
        Instr::Load {
            op,
            rd,
            rs1,
            offset,
        } => address(alloc, load_name(op), rd, rs1, offset.value),
        Instr::Store {
            op,
            rs1,
            rs2,
            offset,
        } => address(alloc, store_name(op), rs2, rs1, offset.value),
        Instr::Imm {
            op,
            rd,
            rs1,
            immediate: value,
        } => immediate(alloc, imm_name(op), rd, rs1, value.value),
        Instr::Addiw {
            rd,
            rs1,
            immediate: value,
        } => immediate(alloc, "addiw", rd, rs1, value.value),
        Instr::Shift {
            op,
            rd,
            rs1,
            amount,
        } => shift(alloc, shift_name(op), rd, rs1, amount.value),
        Instr::ShiftW {
            op,
            rd,
            rs1,
            amount,
        } => shift(alloc, shiftw_name(op), rd, rs1, amount.value),
        Instr::Reg { op, rd, rs1, rs2 } => registers(alloc, reg_name(op), rd, rs1, rs2),
        Instr::RegW { op, rd, rs1, rs2 } => registers(alloc, regw_name(op), rd, rs1, rs2),
        Instr::Fence => String::from_str(alloc, "fence"),
        Instr::Ecall => String::from_str(alloc, "ecall"),
        Instr::Ebreak => String::from_str(alloc, "ebreak"),
    }
}

fn upper(alloc: Global, name: &str, rd: Register, field: u32) -> Result<String, AllocError>
    ensures { IfOk result (λ s. string_bytes s ≡ upper_text name.now rd field) }
{
    format!(in alloc; "{name} {rd}, {field}")
}

fn jump(alloc: Global, rd: Register, offset: i32) -> Result<String, AllocError>
    ensures { IfOk result (λ s. string_bytes s ≡ jump_text rd offset) }
{
    format!(in alloc; "jal {rd}, {offset}")
}

/// A load, a store or a jump: a register, and an address by its base and offset.
fn address(
    alloc: Global,
    name: &str,
    value: Register,
    base: Register,
    offset: i16,
) -> Result<String, AllocError>
    ensures { IfOk result (λ s. string_bytes s ≡ address_text name.now value base offset) }
{
    format!(in alloc; "{name} {value}, {offset}({base})")
}

fn immediate(
    alloc: Global,
    name: &str,
    rd: Register,
    rs1: Register,
    value: i16,
) -> Result<String, AllocError>
    ensures { IfOk result (λ s. string_bytes s ≡ immediate_text name.now rd rs1 value) }
{
    format!(in alloc; "{name} {rd}, {rs1}, {value}")
}

fn shift(
    alloc: Global,
    name: &str,
    rd: Register,
    rs1: Register,
    amount: u8,
) -> Result<String, AllocError>
    ensures { IfOk result (λ s. string_bytes s ≡ shift_text name.now rd rs1 amount) }
{
    format!(in alloc; "{name} {rd}, {rs1}, {amount}")
}

fn registers(
    alloc: Global,
    name: &str,
    rd: Register,
    rs1: Register,
    rs2: Register,
) -> Result<String, AllocError>
    ensures { IfOk result (λ s. string_bytes s ≡ registers_text name.now rd rs1 rs2) }
{
    format!(in alloc; "{name} {rd}, {rs1}, {rs2}")
}

fn branch_name(op: BranchOp) -> &'static str
    ensures { result.now ≡ branch_name op }
{
    match op {
        BranchOp::Beq => "beq",
        BranchOp::Bne => "bne",
        BranchOp::Blt => "blt",
        BranchOp::Bge => "bge",
        BranchOp::Bltu => "bltu",
        BranchOp::Bgeu => "bgeu",
    }
}

/// The name of a load.
pub fn load_name(op: LoadOp) -> &'static str
    ensures { result.now ≡ load_name op }
{
    match op {
        LoadOp::Lb => "lb",
        LoadOp::Lh => "lh",
        LoadOp::Lw => "lw",
        LoadOp::Ld => "ld",
        LoadOp::Lbu => "lbu",
        LoadOp::Lhu => "lhu",
        LoadOp::Lwu => "lwu",
    }
}

fn store_name(op: StoreOp) -> &'static str
    ensures { result.now ≡ store_name op }
{
    match op {
        StoreOp::Sb => "sb",
        StoreOp::Sh => "sh",
        StoreOp::Sw => "sw",
        StoreOp::Sd => "sd",
    }
}

fn imm_name(op: ImmOp) -> &'static str
    ensures { result.now ≡ imm_name op }
{
    match op {
        ImmOp::Addi => "addi",
        ImmOp::Slti => "slti",
        ImmOp::Sltiu => "sltiu",
        ImmOp::Xori => "xori",
        ImmOp::Ori => "ori",
        ImmOp::Andi => "andi",
    }
}

fn shift_name(op: ShiftOp) -> &'static str
    ensures { result.now ≡ shift_name op }
{
    match op {
        ShiftOp::Slli => "slli",
        ShiftOp::Srli => "srli",
        ShiftOp::Srai => "srai",
    }
}

fn shiftw_name(op: ShiftWOp) -> &'static str
    ensures { result.now ≡ shiftw_name op }
{
    match op {
        ShiftWOp::Slliw => "slliw",
        ShiftWOp::Srliw => "srliw",
        ShiftWOp::Sraiw => "sraiw",
    }
}

/// The name of an operation on two registers.
pub fn reg_name(op: RegOp) -> &'static str
    ensures { result.now ≡ reg_name op }
{
    match op {
        RegOp::Add => "add",
        RegOp::Sub => "sub",
        RegOp::Sll => "sll",
        RegOp::Slt => "slt",
        RegOp::Sltu => "sltu",
        RegOp::Xor => "xor",
        RegOp::Srl => "srl",
        RegOp::Sra => "sra",
        RegOp::Or => "or",
        RegOp::And => "and",
        RegOp::Mul => "mul",
        RegOp::Mulh => "mulh",
        RegOp::Mulhsu => "mulhsu",
        RegOp::Mulhu => "mulhu",
        RegOp::Div => "div",
        RegOp::Divu => "divu",
        RegOp::Rem => "rem",
        RegOp::Remu => "remu",
    }
}

/// The name of an operation on the low words of two registers.
pub fn regw_name(op: RegWOp) -> &'static str
    ensures { result.now ≡ regw_name op }
{
    match op {
        RegWOp::Addw => "addw",
        RegWOp::Subw => "subw",
        RegWOp::Sllw => "sllw",
        RegWOp::Srlw => "srlw",
        RegWOp::Sraw => "sraw",
        RegWOp::Mulw => "mulw",
        RegWOp::Divw => "divw",
        RegWOp::Divuw => "divuw",
        RegWOp::Remw => "remw",
        RegWOp::Remuw => "remuw",
    }
}
