//! The machine code of jumps.
ghost use Rattle.std.specs.Prelude.{◌≡◌, ◌^◌, ◌<◌, ◌≤◌, ◌&&◌, nat_eq, ◌++◌, length, OnOk};
ghost use Rattle.rv_isa.specs.declared.labelled.Item.TheVariants.{Branch};
ghost use Rattle.operation_code.specs.Constants.{reg};
ghost use Rattle.abi_frames.specs.Emission.{result_items, goto_items, branch_when, inverted, ways_items, branch_items, left_behind, raise_most, copies_end, leave_items, left_by_value, return_items, jump_items};

use crate::call::{passed_class, push_value};
use crate::ends::push_epilogue;
use crate::layout::Layout;
use crate::line::{operand_source, push_operand_for};
use crate::price::{COPIED_RESTORES, left_behind};
use il_ast::Condition;
use operation_code::constant::has_12_bits;
use operation_code::fields::register;
use rv_isa::{BranchOp, Instr, Item, abi};
use std::alloc::AllocError;
use vcode::{Comparison, Jump, Line, Location, Operation, ReturnValue};

/// Does the label stand next, so that code may fall through to it?
fn is_next(layout: &Layout, next: usize, label: usize) -> bool
    ensures { result ≡ (layout.now.falls && nat_eq label next) }
{
    layout.falls && label == next
}

fn push_goto(
    items: &mut Vec<Item>,
    layout: &Layout,
    next: usize,
    label: usize,
) -> Result<(), AllocError>
    ensures { OnOk result (items.new.items ≡ items.old.items ++ goto_items layout.now next label) }
{
    if !is_next(layout, next, label) {
        items.push(Item::Goto(label))?;
    }
    Ok(())
}

/// To the label where the two registers compare so.
fn branch_when(condition: Condition, left: u8, right: u8, label: usize) -> Item
    ensures { result ≡ branch_when condition left right label }
{
    match condition {
        Condition::Equal => branch(BranchOp::Beq, left, right, label),
        Condition::NotEqual => branch(BranchOp::Bne, left, right, label),
        Condition::SignedLess => branch(BranchOp::Blt, left, right, label),
        Condition::SignedGreater => branch(BranchOp::Blt, right, left, label),
        Condition::SignedLessEqual => branch(BranchOp::Bge, right, left, label),
        Condition::SignedGreaterEqual => branch(BranchOp::Bge, left, right, label),
        Condition::UnsignedLess => branch(BranchOp::Bltu, left, right, label),
        Condition::UnsignedGreater => branch(BranchOp::Bltu, right, left, label),
        Condition::UnsignedLessEqual => branch(BranchOp::Bgeu, right, left, label),
        Condition::UnsignedGreaterEqual => branch(BranchOp::Bgeu, left, right, label),
    }
}

fn branch(op: BranchOp, left: u8, right: u8, label: usize) -> Item
    ensures { result ≡ Branch op (reg left) (reg right) label }
{
    Item::Branch {
        op,
        rs1: register(left),
        rs2: register(right),
        label,
    }
}

fn inverted(condition: Condition) -> Condition
    ensures { result ≡ inverted condition }
{
    match condition {
        Condition::Equal => Condition::NotEqual,
        Condition::NotEqual => Condition::Equal,
        Condition::SignedLess => Condition::SignedGreaterEqual,
        Condition::SignedGreater => Condition::SignedLessEqual,
        Condition::SignedLessEqual => Condition::SignedGreater,
        Condition::SignedGreaterEqual => Condition::SignedLess,
        Condition::UnsignedLess => Condition::UnsignedGreaterEqual,
        Condition::UnsignedGreater => Condition::UnsignedLessEqual,
        Condition::UnsignedLessEqual => Condition::UnsignedGreater,
        Condition::UnsignedGreaterEqual => Condition::UnsignedLess,
    }
}

/// A comparison of two registers.
#[derive(Clone, Copy)]
struct Test {
    condition: Condition,
    left: u8,
    right: u8,
}

fn push_ways(
    items: &mut Vec<Item>,
    layout: &Layout,
    next: usize,
    test: Test,
    met: usize,
    otherwise: usize,
) -> Result<(), AllocError>
    ensures { OnOk result (items.new.items ≡ items.old.items ++ ways_items layout.now next test.condition test.left test.right met otherwise) }
{
    if is_next(layout, next, met) {
        items.push(branch_when(inverted(test.condition), test.left, test.right, otherwise))?;
    } else {
        items.push(branch_when(test.condition, test.left, test.right, met))?;
        push_goto(items, layout, next, otherwise)?;
    }
    Ok(())
}

pub(crate) fn push_branch(
    items: &mut Vec<Item>,
    layout: &Layout,
    next: usize,
    on: &Comparison<Location>,
    met: usize,
    otherwise: usize,
) -> Result<(), AllocError>
    ensures { OnOk result (items.new.items ≡ items.old.items ++ branch_items layout.now next on.now met otherwise) }
{
    let operation = Operation::Compare(on.condition, on.class);
    push_operand_for(items, layout, &operation, abi::FIRST_SCRATCH, &on.left)?;
    push_operand_for(items, layout, &operation, abi::SECOND_SCRATCH, &on.right)?;
    let test = Test {
        condition: on.condition,
        left: operand_source(&operation, abi::FIRST_SCRATCH, &on.left),
        right: operand_source(&operation, abi::SECOND_SCRATCH, &on.right),
    };
    push_ways(items, layout, next, test, met, otherwise)
}

pub(crate) fn push_result(
    items: &mut Vec<Item>,
    layout: &Layout,
    returned: &ReturnValue<Location>,
) -> Result<(), AllocError>
    ensures { OnOk result (items.new.items ≡ items.old.items ++ result_items layout.now layout.now.result returned.now) }
{
    match layout.result {
        None => Ok(()),
        Some(class) => push_value(
            items,
            layout,
            abi::RESULT,
            passed_class(returned.extension, class),
            &returned.value,
        ),
    }
}

/// At most so many instructions raise the stack pointer by the size of a frame.
fn raise_most(size: u64) -> u128
    ensures value { result ≡ raise_most size }
    ensures small { result ≤ 10 }
{
    if size == 0 {
        0
    } else if has_12_bits(size) {
        1
    } else {
        10
    }
}

/// Has a return a copy of the frame's end, where so many instructions are paid for?
fn copies_end(layout: &Layout, saved: &[u8], left: u128) -> bool
    requires few { length saved.now ≤ 13 }
    ensures { result ≡ copies_end layout.now saved.now left }
{
    saved.len() <= COPIED_RESTORES && saved.len() as u128 + (raise_most(layout.size) + 1) <= left
}

/// To the end of the frame, or that end itself where what is left pays for it.
fn push_leave(
    items: &mut Vec<Item>,
    layout: &Layout,
    saved: &[u8],
    next: usize,
    left: u128,
) -> Result<(), AllocError>
    requires few { length saved.now ≤ 13 }
    ensures { OnOk result (items.new.items ≡ items.old.items ++ leave_items layout.now saved.now next left) }
{
    if copies_end(layout, saved, left) && !is_next(layout, next, layout.leave) {
        push_epilogue(items, layout, saved)
    } else {
        push_goto(items, layout, next, layout.leave)
    }
}

/// What a value that is returned leaves at least.
fn left_by_value(left: u128) -> u128
    ensures { result ≡ left_by_value left }
{
    if left < 12 { 2 } else { left - 10 }
}

fn push_return(
    items: &mut Vec<Item>,
    layout: &Layout,
    saved: &[u8],
    next: usize,
    left: u128,
    value: &Option<ReturnValue<Location>>,
) -> Result<(), AllocError>
    requires few { length saved.now ≤ 13 }
    ensures { OnOk result (items.new.items ≡ items.old.items ++ return_items layout.now saved.now next left value.now) }
{
    match value {
        None => push_leave(items, layout, saved, next, left),
        Some(value) => {
            push_result(items, layout, value)?;
            push_leave(items, layout, saved, next, left_by_value(left))
        }
    }
}

/// Puts the code of the jump behind these lines at the end, before the label `next`.
pub(crate) fn push_jump(
    items: &mut Vec<Item>,
    layout: &Layout,
    saved: &[u8],
    next: usize,
    lines: &[Line<Location>],
    jump: &Jump<Location>,
) -> Result<(), AllocError>
    requires few { length saved.now ≤ 13 }
    ensures { OnOk result (items.new.items ≡ items.old.items ++ jump_items layout.now saved.now next (left_behind 0 lines.now) jump.now) }
{
    match jump {
        Jump::Goto(block) => push_goto(items, layout, next, *block)?,
        Jump::Branch { on, met, otherwise } => {
            push_branch(items, layout, next, on, *met, *otherwise)?
        }
        Jump::Return(value) => {
            push_return(items, layout, saved, next, left_behind(lines), value)?
        }
        Jump::Halt => items.push(Item::Plain(Instr::Ebreak))?,
    }
    Ok(())
}
