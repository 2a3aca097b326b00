//! Operations with a number as an operand, done by instructions that have the number in them.
ghost use Rattle.std.specs.Prelude.{◌≡◌, ◌≤◌, [], ◌∷◌, ◌++◌, OnOk};
ghost use Rattle.rv_isa.specs.declared.labelled.Item.TheVariants.{Plain};
ghost use Rattle.rv_isa.specs.declared.instruction.Instr.TheVariants.{Imm};
ghost use Rattle.il_ast.specs.declared.operation.Condition.TheVariants.{Equal, NotEqual};
ghost use Rattle.vcode.specs.Prelude.{low};
ghost use Rattle.operation_code.specs.Constants.{reg, negate};
ghost use Rattle.operation_code.specs.Immediates.{opposite, next, form_if, immediate_form, sum_form, is_power, product_form, word_product_form, reg_form, regw_form, compares_with, comparison_form, number_form, turned, swapped_reg, swapped_regw, swapped, right_form, left_form, compare_number, form_items};

use crate::compare::{negation, test_of_nonzero, test_of_zero};
use crate::constant::{has_12_bits, word};
use crate::fields::{add_immediate, amount, register, word_amount};
use il_ast::{Class, Condition};
use rv_isa::{ImmOp, Instr, Item, RegOp, RegWOp, ShiftOp, ShiftWOp};
use std::alloc::AllocError;
use vcode::place::low_part;
use vcode::{Location, Operand, Operation};

/// How an operation is done on a register and a number.
#[derive(Clone, Copy)]
pub enum Form {
    /// with the number's low 12 bits, read with a sign
    Immediate(ImmOp, u64),
    /// a sum of 32 bits with those
    AddWord(u64),
    /// a shift by the number, modulo 64
    Shift(ShiftOp, u64),
    /// a shift of 32 bits by the number, modulo 32
    ShiftWord(ShiftWOp, u64),
    /// a comparison of 64 bits with the number
    Compare(Condition, u64),
}

/// The number that gives 0 with this one, modulo 2^64.
fn opposite(number: u64) -> u64
    ensures { result ≡ opposite number }
{
    if number == 0 {
        0
    } else {
        u64::MAX - number + 1
    }
}

/// The number that follows, modulo 2^64.
fn next(number: u64) -> u64
    ensures { result ≡ next number }
{
    if number == u64::MAX { 0 } else { number + 1 }
}

fn form_if(fits: bool, form: Form) -> Option<Form>
    ensures { result ≡ form_if fits form }
{
    if fits { Some(form) } else { None }
}

fn immediate_form(op: ImmOp, number: u64) -> Option<Form>
    ensures { result ≡ immediate_form op number }
{
    form_if(has_12_bits(number), Form::Immediate(op, number))
}

fn sum_form(number: u64) -> Option<Form>
    ensures { result ≡ sum_form number }
{
    form_if(has_12_bits(number), Form::AddWord(number))
}

/// Is the number a power of two that has fewer than so many zeros?
fn is_power(bits: u32, number: u64) -> bool
    requires { bits ≤ 64 }
    ensures { result ≡ is_power bits number }
{
    let zeros = number.trailing_zeros();
    zeros < bits && number == 1_u64 << zeros
}

/// A product with a power of two is a shift by its zeros.
fn product_form(number: u64) -> Option<Form>
    ensures { result ≡ product_form number }
{
    let zeros = u64::from(number.trailing_zeros());
    form_if(is_power(64, number), Form::Shift(ShiftOp::Slli, zeros))
}

fn word_product_form(number: u64) -> Option<Form>
    ensures { result ≡ word_product_form number }
{
    let zeros = u64::from(number.trailing_zeros());
    form_if(
        is_power(32, number),
        Form::ShiftWord(ShiftWOp::Slliw, zeros),
    )
}

fn reg_form(op: RegOp, number: u64) -> Option<Form>
    ensures { result ≡ reg_form op number }
{
    match op {
        RegOp::Add => immediate_form(ImmOp::Addi, number),
        RegOp::Sub => immediate_form(ImmOp::Addi, opposite(number)),
        RegOp::Slt => immediate_form(ImmOp::Slti, number),
        RegOp::Sltu => immediate_form(ImmOp::Sltiu, number),
        RegOp::Xor => immediate_form(ImmOp::Xori, number),
        RegOp::Or => immediate_form(ImmOp::Ori, number),
        RegOp::And => immediate_form(ImmOp::Andi, number),
        RegOp::Sll => Some(Form::Shift(ShiftOp::Slli, number)),
        RegOp::Srl => Some(Form::Shift(ShiftOp::Srli, number)),
        RegOp::Sra => Some(Form::Shift(ShiftOp::Srai, number)),
        RegOp::Mul => product_form(number),
        RegOp::Mulh
        | RegOp::Mulhsu
        | RegOp::Mulhu
        | RegOp::Div
        | RegOp::Divu
        | RegOp::Rem
        | RegOp::Remu => None,
    }
}

fn regw_form(op: RegWOp, number: u64) -> Option<Form>
    ensures { result ≡ regw_form op number }
{
    match op {
        RegWOp::Addw => sum_form(word(number)),
        RegWOp::Subw => sum_form(word(opposite(number))),
        RegWOp::Sllw => Some(Form::ShiftWord(ShiftWOp::Slliw, number)),
        RegWOp::Srlw => Some(Form::ShiftWord(ShiftWOp::Srliw, number)),
        RegWOp::Sraw => Some(Form::ShiftWord(ShiftWOp::Sraiw, number)),
        RegWOp::Mulw => word_product_form(number % 0x1_0000_0000),
        RegWOp::Divw | RegWOp::Divuw | RegWOp::Remw | RegWOp::Remuw => None,
    }
}

/// X is at most n where it is less than n + 1, and is n where x - n is 0.
fn compares_with(condition: Condition, number: u64) -> bool
    ensures { result ≡ compares_with condition number }
{
    match condition {
        Condition::Equal | Condition::NotEqual => has_12_bits(opposite(number)),
        Condition::SignedLess
        | Condition::SignedGreaterEqual
        | Condition::UnsignedLess
        | Condition::UnsignedGreaterEqual => has_12_bits(number),
        Condition::SignedLessEqual | Condition::SignedGreater => has_12_bits(next(number)),
        Condition::UnsignedLessEqual | Condition::UnsignedGreater => {
            let after = next(number);
            has_12_bits(after) && after != 0
        }
    }
}

fn comparison_form(condition: Condition, number: u64) -> Option<Form>
    ensures { result ≡ comparison_form condition number }
{
    form_if(
        compares_with(condition, number),
        Form::Compare(condition, number),
    )
}

/// The form of an operation with this number on its right, where it has one.
pub fn number_form(operation: &Operation, number: u64) -> Option<Form>
    ensures { result ≡ number_form operation.now number }
{
    match operation {
        Operation::Reg(op) => reg_form(*op, number),
        Operation::RegW(op) => regw_form(*op, number),
        Operation::Compare(condition, Class::L) => comparison_form(*condition, number),
        Operation::Compare(condition, Class::W) => comparison_form(*condition, word(number)),
    }
}

/// The form of an operation with this operand on its right, where it has one.
pub fn right_form(operation: &Operation, right: &Operand<Location>) -> Option<Form>
    ensures { result ≡ right_form operation.now right.now }
{
    match right {
        Operand::Number(number) => number_form(operation, *number),
        Operand::At(_) | Operand::Name(_) => None,
    }
}

fn turned(condition: Condition) -> Condition
    ensures { result ≡ turned condition }
{
    match condition {
        Condition::Equal => Condition::Equal,
        Condition::NotEqual => Condition::NotEqual,
        Condition::SignedLess => Condition::SignedGreater,
        Condition::SignedGreater => Condition::SignedLess,
        Condition::SignedLessEqual => Condition::SignedGreaterEqual,
        Condition::SignedGreaterEqual => Condition::SignedLessEqual,
        Condition::UnsignedLess => Condition::UnsignedGreater,
        Condition::UnsignedGreater => Condition::UnsignedLess,
        Condition::UnsignedLessEqual => Condition::UnsignedGreaterEqual,
        Condition::UnsignedGreaterEqual => Condition::UnsignedLessEqual,
    }
}

fn swapped_reg(op: RegOp) -> Option<Operation>
    ensures { result ≡ swapped_reg op }
{
    match op {
        RegOp::Add | RegOp::Xor | RegOp::Or | RegOp::And | RegOp::Mul => Some(Operation::Reg(op)),
        RegOp::Sub
        | RegOp::Sll
        | RegOp::Slt
        | RegOp::Sltu
        | RegOp::Srl
        | RegOp::Sra
        | RegOp::Mulh
        | RegOp::Mulhsu
        | RegOp::Mulhu
        | RegOp::Div
        | RegOp::Divu
        | RegOp::Rem
        | RegOp::Remu => None,
    }
}

fn swapped_regw(op: RegWOp) -> Option<Operation>
    ensures { result ≡ swapped_regw op }
{
    match op {
        RegWOp::Addw | RegWOp::Mulw => Some(Operation::RegW(op)),
        RegWOp::Subw
        | RegWOp::Sllw
        | RegWOp::Srlw
        | RegWOp::Sraw
        | RegWOp::Divw
        | RegWOp::Divuw
        | RegWOp::Remw
        | RegWOp::Remuw => None,
    }
}

/// The operation that gives the same with its operands exchanged.
pub fn swapped(operation: &Operation) -> Option<Operation>
    ensures { result ≡ swapped operation.now }
{
    match operation {
        Operation::Reg(op) => swapped_reg(*op),
        Operation::RegW(op) => swapped_regw(*op),
        Operation::Compare(condition, class) => {
            Some(Operation::Compare(turned(*condition), *class))
        }
    }
}

/// The same for an operand on its left, on the other operand.
pub fn left_form(operation: &Operation, left: &Operand<Location>) -> Option<Form>
    ensures { result ≡ left_form operation.now left.now }
{
    let exchanged = swapped(operation)?;
    right_form(&exchanged, left)
}

fn immediate(op: ImmOp, to: u8, from: u8, number: u64) -> Item
    ensures { result ≡ Plain (Imm op (reg to) (reg from) (low number)) }
{
    Item::Plain(Instr::Imm {
        op,
        rd: register(to),
        rs1: register(from),
        immediate: low_part(number),
    })
}

fn push_equal(items: &mut Vec<Item>, to: u8, from: u8, number: u64) -> Result<(), AllocError>
    ensures { OnOk result (items.new.items ≡ items.old.items ++ compare_number Equal to from number) }
{
    if number == 0 {
        items.push(test_of_zero(to, from))?;
    } else {
        items.push(add_immediate(to, from, opposite(number)))?;
        items.push(test_of_zero(to, to))?;
    }
    Ok(())
}

fn push_not_equal(items: &mut Vec<Item>, to: u8, from: u8, number: u64) -> Result<(), AllocError>
    ensures { OnOk result (items.new.items ≡ items.old.items ++ compare_number NotEqual to from number) }
{
    if number == 0 {
        items.push(test_of_nonzero(to, from))?;
    } else {
        items.push(add_immediate(to, from, opposite(number)))?;
        items.push(test_of_nonzero(to, to))?;
    }
    Ok(())
}

/// Whether the register is not less.
fn push_not_less(
    items: &mut Vec<Item>,
    op: ImmOp,
    to: u8,
    from: u8,
    number: u64,
) -> Result<(), AllocError>
    ensures { OnOk result (items.new.items ≡ items.old.items ++ (Plain (Imm op (reg to) (reg from) (low number)) ∷ negate to ∷ [])) }
{
    items.push(immediate(op, to, from, number))?;
    items.push(negation(to))?;
    Ok(())
}

fn push_less(
    items: &mut Vec<Item>,
    op: ImmOp,
    to: u8,
    from: u8,
    number: u64,
) -> Result<(), AllocError>
    ensures { OnOk result (items.new.items ≡ items.old.items ++ (Plain (Imm op (reg to) (reg from) (low number)) ∷ [])) }
{
    items.push(immediate(op, to, from, number))?;
    Ok(())
}

fn push_comparison(
    items: &mut Vec<Item>,
    condition: Condition,
    to: u8,
    from: u8,
    number: u64,
) -> Result<(), AllocError>
    ensures { OnOk result (items.new.items ≡ items.old.items ++ compare_number condition to from number) }
{
    match condition {
        Condition::Equal => push_equal(items, to, from, number),
        Condition::NotEqual => push_not_equal(items, to, from, number),
        Condition::SignedLess => push_less(items, ImmOp::Slti, to, from, number),
        Condition::SignedGreaterEqual => push_not_less(items, ImmOp::Slti, to, from, number),
        Condition::SignedLessEqual => push_less(items, ImmOp::Slti, to, from, next(number)),
        Condition::SignedGreater => push_not_less(items, ImmOp::Slti, to, from, next(number)),
        Condition::UnsignedLess => push_less(items, ImmOp::Sltiu, to, from, number),
        Condition::UnsignedGreaterEqual => push_not_less(items, ImmOp::Sltiu, to, from, number),
        Condition::UnsignedLessEqual => push_less(items, ImmOp::Sltiu, to, from, next(number)),
        Condition::UnsignedGreater => push_not_less(items, ImmOp::Sltiu, to, from, next(number)),
    }
}

/// Puts the code of a form at the end, from a register to another.
pub fn push_form(items: &mut Vec<Item>, form: Form, to: u8, from: u8) -> Result<(), AllocError>
    ensures { OnOk result (items.new.items ≡ items.old.items ++ form_items form to from) }
{
    let rd = register(to);
    let rs1 = register(from);
    match form {
        Form::Immediate(op, number) => items.push(immediate(op, to, from, number))?,
        Form::AddWord(number) => items.push(Item::Plain(Instr::Addiw {
            rd,
            rs1,
            immediate: low_part(number),
        }))?,
        Form::Shift(op, number) => items.push(Item::Plain(Instr::Shift {
            op,
            rd,
            rs1,
            amount: amount(number),
        }))?,
        Form::ShiftWord(op, number) => items.push(Item::Plain(Instr::ShiftW {
            op,
            rd,
            rs1,
            amount: word_amount(number),
        }))?,
        Form::Compare(condition, number) => push_comparison(items, condition, to, from, number)?,
    }
    Ok(())
}
