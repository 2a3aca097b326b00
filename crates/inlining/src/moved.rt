//! A candidate's lines and jumps at other registers and blocks.
ghost use Rattle.std.specs.Prelude.{◌≡◌, ℕ, ◌+◌, ◌++◌, ◌<◌, map, IsTrue, IfOk, OnOk, option_map};
ghost use Rattle.std.specs.List.{list_all};
ghost use Rattle.vcode.specs.declared.limits.TheConstants.{PLACES};
ghost use Rattle.vcode.specs.declared.place.Argument.{Argument as ArgumentOf};
ghost use Rattle.vcode.specs.Prelude.{operand_keeps, wanted_keeps, line_keeps, jump_keeps, is_below, is_target, leads_inside, with_base, with_argument, with_comparison};
ghost use Rattle.inlining.specs.declared.limits.TheConstants.{BLOCKS};
ghost use Rattle.inlining.specs.InPlace.{moved, moved_destination, moved_line, moved_jump};

use il_ast::Seq;
use std::alloc::{AllocError, Global};
use vcode::{Address, Argument, Comparison, Destination, Jump, Line, Operand};

/// The operand with its register so many further.
pub(crate) fn moved(base: u32, from: &Operand<u32>) -> Operand<u32>
    requires base { base < PLACES }
    requires known { IsTrue (operand_keeps (is_below PLACES) from.now) }
    ensures { result ≡ moved base from.now }
{
    match from {
        Operand::At(register) => Operand::At(*register + base),
        Operand::Number(number) => Operand::Number(*number),
        Operand::Name(name) => Operand::Name(*name),
    }
}

fn moved_address(base: u32, from: &Address<u32>) -> Address<u32>
    requires base { base < PLACES }
    requires known { IsTrue (operand_keeps (is_below PLACES) from.now.base) }
    ensures { result ≡ with_base (moved base) from.now }
{
    Address {
        base: moved(base, &from.base),
        offset: from.offset,
    }
}

fn moved_comparison(base: u32, from: &Comparison<u32>) -> Comparison<u32>
    requires base { base < PLACES }
    requires left { IsTrue (operand_keeps (is_below PLACES) from.now.left) }
    requires right { IsTrue (operand_keeps (is_below PLACES) from.now.right) }
    ensures { result ≡ with_comparison (moved base) from.now }
{
    Comparison {
        condition: from.condition,
        class: from.class,
        left: moved(base, &from.left),
        right: moved(base, &from.right),
    }
}

fn moved_destination(base: u32, from: Destination<u32>) -> Destination<u32>
    requires base { base < PLACES }
    requires known { IsTrue (is_below PLACES from.place) }
    ensures { result ≡ moved_destination base from }
{
    Destination {
        place: from.place + base,
        class: from.class,
    }
}

fn moved_wanted(base: u32, from: &Option<Destination<u32>>) -> Option<Destination<u32>>
    requires base { base < PLACES }
    requires known { IsTrue (wanted_keeps (is_below PLACES) from.now) }
    ensures { result ≡ option_map (moved_destination base) from.now }
{
    match *from {
        None => None,
        Some(to) => Some(moved_destination(base, to)),
    }
}

fn moved_argument(base: u32, from: &Argument<u32>) -> Argument<u32>
    requires base { base < PLACES }
    requires known { IsTrue (operand_keeps (is_below PLACES) from.now.value) }
    ensures { result ≡ with_argument (moved base) from.now }
{
    Argument {
        class: from.class,
        value: moved(base, &from.value),
        extension: from.extension,
    }
}

fn push_moved(
    base: u32,
    to: &mut Seq<Argument<u32>>,
    args: &[Argument<u32>],
) -> Result<(), AllocError>
    requires base { base < PLACES }
    requires known { IsTrue (list_all (λ (a : ArgumentOf ℕ). operand_keeps (is_below PLACES) a.value) args.now) }
    ensures { OnOk result (to.new ≡ to.old ++ map (with_argument (moved base)) args.now) }
{
    for arg in args {
        to.push(moved_argument(base, arg))?;
    }
    Ok(())
}

fn moved_arguments(
    alloc: Global,
    base: u32,
    args: &[Argument<u32>],
) -> Result<Seq<Argument<u32>>, AllocError>
    requires base { base < PLACES }
    requires known { IsTrue (list_all (λ (a : ArgumentOf ℕ). operand_keeps (is_below PLACES) a.value) args.now) }
    ensures { IfOk result (λ v. v ≡ map (with_argument (moved base)) args.now) }
{
    let mut to = Seq::new(alloc);
    push_moved(base, &mut to, args)?;
    Ok(to)
}

/// The line with its registers so many further. One that makes a block of memory stays as it is.
pub(crate) fn moved_line(
    alloc: Global,
    base: u32,
    from: &Line<u32>,
) -> Result<Line<u32>, AllocError>
    requires base { base < PLACES }
    requires known { IsTrue (line_keeps (is_below PLACES) from.now) }
    ensures { IfOk result (λ line. line ≡ moved_line base from.now) }
{
    Ok(match from {
        Line::Tick { turn, weight } => Line::Tick {
            turn: *turn,
            weight: *weight,
        },
        Line::Set { to, value } => Line::Set {
            to: *to + base,
            value: moved(base, value),
        },
        Line::Operate {
            to,
            operation,
            left,
            right,
        } => Line::Operate {
            to: *to + base,
            operation: *operation,
            left: moved(base, left),
            right: moved(base, right),
        },
        Line::Load { to, op, at } => Line::Load {
            to: *to + base,
            op: *op,
            at: moved_address(base, at),
        },
        Line::Store { size, value, at } => Line::Store {
            size: *size,
            value: moved(base, value),
            at: moved_address(base, at),
        },
        Line::Alloc { to, size } => Line::Alloc {
            to: *to,
            size: *size,
        },
        Line::Blit { from, to, count } => Line::Blit {
            from: moved(base, from),
            to: moved(base, to),
            count: *count,
        },
        Line::Call { to, callee, args } => Line::Call {
            to: moved_wanted(base, to),
            callee: moved(base, callee),
            args: moved_arguments(alloc, base, args.as_slice())?,
        },
    })
}

/// The jump with its registers so many further, where the candidate's blocks stand behind the one that goes on behind the call: a return goes to that.
pub(crate) fn moved_jump(behind: usize, base: u32, from: &Jump<u32>) -> Jump<u32>
    requires few { behind < BLOCKS }
    requires base { base < PLACES }
    requires inside { IsTrue (leads_inside BLOCKS from.now) }
    requires known { IsTrue (jump_keeps (is_below PLACES) from.now) }
    ensures { result ≡ moved_jump (behind + 1) behind base from.now }
{
    match from {
        Jump::Goto(block) => Jump::Goto(*block + (behind + 1)),
        Jump::Branch { on, met, otherwise } => Jump::Branch {
            on: moved_comparison(base, on),
            met: *met + (behind + 1),
            otherwise: *otherwise + (behind + 1),
        },
        Jump::Return(_) => Jump::Goto(behind),
        Jump::Halt => Jump::Halt,
    }
}
