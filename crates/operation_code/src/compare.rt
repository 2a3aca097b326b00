//! The machine code of comparisons.
ghost use Rattle.std.specs.Prelude.{◌≡◌, [], ◌∷◌, ◌++◌, OnOk};
ghost use Rattle.il_ast.specs.declared.operation.Condition.TheVariants.{Equal, NotEqual};
ghost use Rattle.rv_isa.specs.declared.labelled.Item.TheVariants.{Plain};
ghost use Rattle.rv_isa.specs.declared.instruction.Instr.TheVariants.{Reg};
ghost use Rattle.operation_code.specs.Constants.{reg, negate, is_zero, is_not_zero};
ghost use Rattle.operation_code.specs.Immediates.{compare_items};

use crate::fields::register;
use il_ast::Condition;
use rv_isa::{ImmOp, Instr, Item, RegOp};
use std::alloc::AllocError;
use vcode::place::low_part;

fn on_registers(op: RegOp, to: u8, left: u8, right: u8) -> Item
    ensures { result ≡ Plain (Reg op (reg to) (reg left) (reg right)) }
{
    Item::Plain(Instr::Reg {
        op,
        rd: register(to),
        rs1: register(left),
        rs2: register(right),
    })
}

/// A truth value in a register is made false or true, and true or false.
pub(crate) fn negation(of: u8) -> Item
    ensures { result ≡ negate of }
{
    Item::Plain(Instr::Imm {
        op: ImmOp::Xori,
        rd: register(of),
        rs1: register(of),
        immediate: low_part(1),
    })
}

/// Whether a register is 0.
pub(crate) fn test_of_zero(to: u8, of: u8) -> Item
    ensures { result ≡ is_zero to of }
{
    Item::Plain(Instr::Imm {
        op: ImmOp::Sltiu,
        rd: register(to),
        rs1: register(of),
        immediate: low_part(1),
    })
}

/// Whether it is not 0.
pub(crate) fn test_of_nonzero(to: u8, of: u8) -> Item
    ensures { result ≡ is_not_zero to of }
{
    on_registers(RegOp::Sltu, to, 0, of)
}

fn push_negated(
    items: &mut Vec<Item>,
    op: RegOp,
    to: u8,
    left: u8,
    right: u8,
) -> Result<(), AllocError>
    ensures { OnOk result (items.new.items ≡ items.old.items ++ (Plain (Reg op (reg to) (reg left) (reg right)) ∷ negate to ∷ [])) }
{
    items.push(on_registers(op, to, left, right))?;
    items.push(negation(to))?;
    Ok(())
}

fn push_equal(items: &mut Vec<Item>, to: u8, left: u8, right: u8) -> Result<(), AllocError>
    ensures { OnOk result (items.new.items ≡ items.old.items ++ compare_items Equal to left right) }
{
    items.push(on_registers(RegOp::Sub, to, left, right))?;
    items.push(test_of_zero(to, to))?;
    Ok(())
}

fn push_not_equal(items: &mut Vec<Item>, to: u8, left: u8, right: u8) -> Result<(), AllocError>
    ensures { OnOk result (items.new.items ≡ items.old.items ++ compare_items NotEqual to left right) }
{
    items.push(on_registers(RegOp::Sub, to, left, right))?;
    items.push(test_of_nonzero(to, to))?;
    Ok(())
}

fn push_less(
    items: &mut Vec<Item>,
    op: RegOp,
    to: u8,
    left: u8,
    right: u8,
) -> Result<(), AllocError>
    ensures { OnOk result (items.new.items ≡ items.old.items ++ (Plain (Reg op (reg to) (reg left) (reg right)) ∷ [])) }
{
    items.push(on_registers(op, to, left, right))?;
    Ok(())
}

/// Puts the code of a comparison of two registers at the end: 1 in `to` where it holds, else 0.
pub(crate) fn push_compare(
    items: &mut Vec<Item>,
    condition: Condition,
    to: u8,
    left: u8,
    right: u8,
) -> Result<(), AllocError>
    ensures { OnOk result (items.new.items ≡ items.old.items ++ compare_items condition to left right) }
{
    match condition {
        Condition::Equal => push_equal(items, to, left, right),
        Condition::NotEqual => push_not_equal(items, to, left, right),
        Condition::SignedLess => push_less(items, RegOp::Slt, to, left, right),
        Condition::SignedGreater => push_less(items, RegOp::Slt, to, right, left),
        Condition::SignedLessEqual => push_negated(items, RegOp::Slt, to, right, left),
        Condition::SignedGreaterEqual => push_negated(items, RegOp::Slt, to, left, right),
        Condition::UnsignedLess => push_less(items, RegOp::Sltu, to, left, right),
        Condition::UnsignedGreater => push_less(items, RegOp::Sltu, to, right, left),
        Condition::UnsignedLessEqual => push_negated(items, RegOp::Sltu, to, right, left),
        Condition::UnsignedGreaterEqual => push_negated(items, RegOp::Sltu, to, left, right),
    }
}
