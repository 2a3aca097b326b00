//! What is wanted inside a block.
ghost use Rattle.std.specs.Prelude.{◌≡◌, ◌<◌, ◌&&◌, ◌||◌, not, ℕ, true, nat_eq, if◌then◌else◌, IfOk, [], ◌∷◌};
ghost use Rattle.std.specs.List.{list_any, list_all};
ghost use Rattle.std.specs.Option.{option_map_or};
ghost use Rattle.bitset.specs.Bits.{is_member};
ghost use Rattle.vcode.specs.Prelude.{operand_keeps, line_keeps, jump_keeps, is_below};
ghost use Rattle.dead_code.specs.Without.{is_dead, as_wanted, names_it, reads_it, writes_it, wanted_above, wanted_behind, held};

use bitset::BitSet;
use std::alloc::{AllocError, Global};
use vcode::{Argument, Jump, Line, Operand};

/// Whether the register is wanted.
pub(crate) fn has(set: &BitSet, register: u32) -> bool
    ensures { result ≡ is_member set.now register }
{
    (register as usize) < set.len() && set.contains(register as usize)
}

fn want(set: &mut BitSet, register: u32)
    requires { register < set.old.length }
    ensures length { set.new.length ≡ set.old.length }
    ensures wanted { (r : ℕ) → is_member set.new r ≡ (is_member set.old r || nat_eq register r) }
{
    set.insert(register as usize);
}

fn drop_wanted(set: &mut BitSet, register: u32)
    requires { register < set.old.length }
    ensures length { set.new.length ≡ set.old.length }
    ensures wanted { (r : ℕ) → is_member set.new r ≡ (is_member set.old r && not (nat_eq register r)) }
{
    set.remove(register as usize);
}

fn want_operand(set: &mut BitSet, operand: &Operand<u32>)
    requires { operand_keeps (is_below set.old.length) operand.now ≡ true }
    ensures length { set.new.length ≡ set.old.length }
    ensures wanted { (r : ℕ) → is_member set.new r ≡ (is_member set.old r || names_it operand.now r) }
{
    match operand {
        Operand::At(register) => want(set, *register),
        Operand::Number(_) => {}
        Operand::Name(_) => {}
    }
}

fn want_args(set: &mut BitSet, args: &[Argument<u32>])
    requires { list_all (λ a. operand_keeps (is_below set.old.length) a.value) args.now ≡ true }
    ensures length { set.new.length ≡ set.old.length }
    ensures wanted { (r : ℕ) → is_member set.new r ≡ (is_member set.old r || list_any (λ a. names_it a.value r) args.now) }
{
    for arg in args {
        want_operand(set, &arg.value);
    }
}

fn want_reads(set: &mut BitSet, line: &Line<u32>)
    requires { line_keeps (is_below set.old.length) line.now ≡ true }
    ensures length { set.new.length ≡ set.old.length }
    ensures wanted { (r : ℕ) → is_member set.new r ≡ (is_member set.old r || reads_it line.now r) }
{
    match line {
        Line::Tick { .. } => {}
        Line::Set { value, .. } => want_operand(set, value),
        Line::Operate { left, right, .. } => {
            want_operand(set, left);
            want_operand(set, right);
        }
        Line::Load { at, .. } => want_operand(set, &at.base),
        Line::Store { value, at, .. } => {
            want_operand(set, value);
            want_operand(set, &at.base);
        }
        Line::Alloc { .. } => {}
        Line::Blit { from, to, .. } => {
            want_operand(set, from);
            want_operand(set, to);
        }
        Line::Call { callee, args, .. } => {
            want_operand(set, callee);
            want_args(set, args.as_slice());
        }
    }
}

fn drop_written(set: &mut BitSet, line: &Line<u32>)
    requires { line_keeps (is_below set.old.length) line.now ≡ true }
    ensures length { set.new.length ≡ set.old.length }
    ensures wanted { (r : ℕ) → is_member set.new r ≡ (is_member set.old r && not (writes_it line.now r)) }
{
    match line {
        Line::Set { to, .. }
        | Line::Operate { to, .. }
        | Line::Load { to, .. }
        | Line::Alloc { to: Some(to), .. } => drop_wanted(set, *to),
        Line::Alloc { to: None, .. } => {}
        Line::Call { to: Some(to), .. } => drop_wanted(set, to.place),
        Line::Call { to: None, .. } => {}
        Line::Tick { .. } | Line::Store { .. } | Line::Blit { .. } => {}
    }
}

/// Goes on from right behind a line that stays to right before it.
pub(crate) fn pass_line(set: &mut BitSet, line: &Line<u32>)
    requires { line_keeps (is_below set.old.length) line.now ≡ true }
    ensures length { set.new.length ≡ set.old.length }
    ensures wanted { is_member set.new ≡ wanted_above (is_member set.old) line.now }
{
    drop_written(set, line);
    want_reads(set, line);
}

/// The same, but over ticks, as most lines are, at once.
pub(crate) fn pass(set: &mut BitSet, line: &Line<u32>)
    requires { line_keeps (is_below set.old.length) line.now ≡ true }
    ensures length { set.new.length ≡ set.old.length }
    ensures wanted { is_member set.new ≡ wanted_above (is_member set.old) line.now }
{
    match line {
        Line::Tick { .. } => {}
        _ => pass_line(set, line),
    }
}

/// Whether a line behind which this is wanted does nothing but write a register that isn't.
pub(crate) fn is_dead(set: &BitSet, line: &Line<u32>) -> bool
    ensures { result ≡ is_dead (is_member set.now) line.now }
{
    match line {
        Line::Set { to, .. } | Line::Operate { to, .. } | Line::Load { to, .. } => !has(set, *to),
        _ => false,
    }
}

/// The line that stays for one behind which this is wanted: the same, but a block of memory without a register where that isn't wanted.
///
/// # Errors
///
/// Only where memory was refused.
pub(crate) fn as_wanted(
    alloc: Global,
    set: &BitSet,
    line: &Line<u32>,
) -> Result<Line<u32>, AllocError>
    ensures { IfOk result (λ m. m ≡ as_wanted (is_member set.now) line.now) }
{
    match line {
        Line::Tick { turn, weight } => Ok(Line::Tick {
            turn: *turn,
            weight: *weight,
        }),
        Line::Alloc { to: Some(to), size } => {
            let is_wanted = has(set, *to);
            Ok(Line::Alloc {
                to: if is_wanted { Some(*to) } else { None },
                size: *size,
            })
        }
        _ => line.try_clone(alloc),
    }
}

/// Joins what is wanted at the beginning of a block.
fn want_all(set: &mut BitSet, starts: &[BitSet], block: usize)
    ensures length { set.new.length ≡ set.old.length }
    ensures wanted { (r : ℕ) → is_member set.new r ≡ (is_member set.old r || held set.old.length starts.now block r) }
{
    match starts.get(block) {
        Some(row) => {
            if row.len() == set.len() {
                set.union_into(row);
            }
        }
        None => {}
    }
}

/// Makes the set what is wanted behind the lines of a block with this jump, by what is wanted at the beginnings of blocks.
pub(crate) fn begin(set: &mut BitSet, starts: &[BitSet], jump: &Jump<u32>)
    requires { jump_keeps (is_below set.old.length) jump.now ≡ true }
    ensures length { set.new.length ≡ set.old.length }
    ensures wanted { (r : ℕ) → is_member set.new r ≡ wanted_behind set.old.length starts.now jump.now r }
{
    set.clear();
    match jump {
        Jump::Goto(block) => want_all(set, starts, *block),
        Jump::Branch { on, met, otherwise } => {
            want_all(set, starts, *met);
            want_all(set, starts, *otherwise);
            want_operand(set, &on.left);
            want_operand(set, &on.right);
        }
        Jump::Return(Some(returned)) => want_operand(set, &returned.value),
        Jump::Return(None) => {}
        Jump::Halt => {}
    }
}
