//! Instructions that are done one after another within a block: all but calls, and but those that make blocks or copy bytes.
ghost use Rattle.std.specs.Prelude.{◌-◌, ◌≤◌, MatchOption};
ghost use Rattle.il_ast.specs.declared.instruction.Inst.TheVariants.{Unary, Binary, Store};
ghost use Rattle.il_ast.specs.Prelude.{globals_of};
ghost use Rattle.obj_link.specs.Prelude.{program};
ghost use Rattle.il_interp.specs.Rows.{held, Does, GoesOn, Undone};

use crate::operand::operand;
use crate::operate::{operate_one, operate_two};
use crate::slots::Slots;
use crate::{accesses, numbers};
use il_ast::{BinaryOp, Class, Dest, Inst, Lined, Size, UnaryOp, Val};
use il_mem::memory::BlockMemory;
use il_types::classes::{left_class, operand_class, right_class, stored_class};
use obj_link::Linked;

/// `to = op value`, of any value. None, and nothing changes, where it is undefined.
#[inline(never)]
#[tactic(auto, unfolding(il_ast::specs::Effect::inst_effect))]
fn on_value(
    linked: &Linked<'_>,
    text: usize,
    temps: &mut Slots,
    memory: &BlockMemory,
    to: &Dest,
    op: UnaryOp,
    value: Val,
) -> Option<()>
    ensures { MatchOption result (Undone (globals_of (program linked.now) text) (held temps.old memory.now) (Unary to.now op value) (held temps.new memory.now)) (λ _. Does (globals_of (program linked.now) text) (held temps.old memory.now) (Unary to.now op value) (held temps.new memory.now)) }
{
    let found = operand(linked, text, temps, operand_class(op, to.class), value)?;
    let made = operate_one(memory, op, to.class, found)?;
    temps.set(to.temp.number(), made);
    Some(())
}

/// `to = op value`. None, and nothing changes, where it is undefined.
fn unary(
    linked: &Linked<'_>,
    text: usize,
    temps: &mut Slots,
    memory: &BlockMemory,
    to: &Dest,
    op: &UnaryOp,
    value: &Val,
) -> Option<()>
    ensures { MatchOption result (Undone (globals_of (program linked.now) text) (held temps.old memory.now) (Unary to.now op.now value.now) (held temps.new memory.now)) (λ _. Does (globals_of (program linked.now) text) (held temps.old memory.now) (Unary to.now op.now value.now) (held temps.new memory.now)) }
{
    if accesses::load(temps, memory, to, op, value) {
        Some(())
    } else {
        on_value(linked, text, temps, memory, to, *op, *value)
    }
}

/// `to = op left, right`, of any values. None, and nothing changes, where it is undefined.
#[inline(never)]
#[tactic(auto, unfolding(il_ast::specs::Effect::inst_effect))]
fn on_values(
    linked: &Linked<'_>,
    text: usize,
    temps: &mut Slots,
    memory: &BlockMemory,
    to: &Dest,
    op: BinaryOp,
    left: Val,
    right: Val,
) -> Option<()>
    ensures { MatchOption result (Undone (globals_of (program linked.now) text) (held temps.old memory.now) (Binary to.now op left right) (held temps.new memory.now)) (λ _. Does (globals_of (program linked.now) text) (held temps.old memory.now) (Binary to.now op left right) (held temps.new memory.now)) }
{
    let first = operand(linked, text, temps, left_class(op, to.class), left)?;
    let second = operand(linked, text, temps, right_class(op, to.class), right)?;
    let made = operate_two(memory, op, to.class, first, second)?;
    temps.set(to.temp.number(), made);
    Some(())
}

/// `to = op left, right`. None, and nothing changes, where it is undefined.
fn binary(
    linked: &Linked<'_>,
    text: usize,
    temps: &mut Slots,
    memory: &BlockMemory,
    to: &Dest,
    op: &BinaryOp,
    left: &Val,
    right: &Val,
) -> Option<()>
    ensures { MatchOption result (Undone (globals_of (program linked.now) text) (held temps.old memory.now) (Binary to.now op.now left.now right.now) (held temps.new memory.now)) (λ _. Does (globals_of (program linked.now) text) (held temps.old memory.now) (Binary to.now op.now left.now right.now) (held temps.new memory.now)) }
{
    if numbers::binary(temps, to, op, left, right) || accesses::add(temps, to, op, left, right) {
        Some(())
    } else {
        on_values(linked, text, temps, memory, to, *op, *left, *right)
    }
}

/// `store value, at`, of any value. None, and nothing changes, where it is undefined.
#[inline(never)]
#[tactic(auto, unfolding(il_ast::specs::Effect::inst_effect))]
fn store_value(
    linked: &Linked<'_>,
    text: usize,
    temps: &Slots,
    memory: &mut BlockMemory,
    size: Size,
    value: Val,
    at: Val,
) -> Option<()>
    ensures { MatchOption result (Undone (globals_of (program linked.now) text) (held temps.now memory.old) (Store size value at) (held temps.now memory.new)) (λ _. Does (globals_of (program linked.now) text) (held temps.now memory.old) (Store size value at) (held temps.now memory.new)) }
{
    let found = operand(linked, text, temps, stored_class(size), value)?;
    let place = operand(linked, text, temps, Class::L, at)?;
    memory.store(place, found, size)
}

/// `store value, at`. None, and nothing changes, where it is undefined.
fn store(
    linked: &Linked<'_>,
    text: usize,
    temps: &Slots,
    memory: &mut BlockMemory,
    size: &Size,
    value: &Val,
    at: &Val,
) -> Option<()>
    ensures { MatchOption result (Undone (globals_of (program linked.now) text) (held temps.now memory.old) (Store size.now value.now at.now) (held temps.now memory.new)) (λ _. Does (globals_of (program linked.now) text) (held temps.now memory.old) (Store size.now value.now at.now) (held temps.now memory.new)) }
{
    if accesses::store(temps, memory, size, value, at) {
        Some(())
    } else {
        store_value(linked, text, temps, memory, *size, *value, *at)
    }
}

/// Does an instruction of a text, where it is one of these. None, and nothing changes, where it is undefined or another one.
pub fn instruction(
    linked: &Linked<'_>,
    text: usize,
    temps: &mut Slots,
    memory: &mut BlockMemory,
    inst: &Inst,
) -> Option<()>
    ensures { MatchOption result (Undone (globals_of (program linked.now) text) (held temps.old memory.old) inst.now (held temps.new memory.new)) (λ _. Does (globals_of (program linked.now) text) (held temps.old memory.old) inst.now (held temps.new memory.new)) }
{
    match inst {
        Inst::Binary {
            to,
            op,
            left,
            right,
        } => binary(linked, text, temps, memory, to, op, left, right),
        Inst::Unary { to, op, value } => unary(linked, text, temps, memory, to, op, value),
        Inst::Store { size, value, at } => store(linked, text, temps, memory, size, value, at),
        Inst::Alloc { .. } | Inst::Blit { .. } | Inst::Call { .. } => None,
    }
}

/// Does the instructions of a text that stand in a block from a place on, while they are some of these and are
/// defined, at most so many. Answers the place behind them.
pub fn operate_in_row(
    linked: &Linked<'_>,
    text: usize,
    insts: &[Lined<Inst>],
    temps: &mut Slots,
    memory: &mut BlockMemory,
    next: usize,
    most: u64,
) -> usize
    ensures more { next ≤ result }
    ensures few { result - next ≤ most }
    ensures goes { GoesOn (program linked.now) text insts.now (held temps.old memory.old) next (held temps.new memory.new) result }
{
    let count = insts.len();
    if next >= count {
        return next;
    }
    let end = if most < (count - next) as u64 {
        next + most as usize
    } else {
        count
    };
    for at in next..end {
        match instruction(linked, text, temps, memory, &insts[at].item) {
            Some(()) => {}
            None => return at,
        }
    }
    end
}
