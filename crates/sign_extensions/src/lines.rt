//! Lines in which extensions of whole words are copies, and whole words are passed as such.
ghost use Rattle.std.specs.Prelude.{◌≡◌, map, IfOk};
ghost use Rattle.sign_extensions.specs.Whole.{is_extension, claim, with_claim, jump_claim, with_copy, with_copies};

use crate::marks::{is_marked, is_whole};
use il_ast::Seq;
use rv_isa::RegWOp;
use std::alloc::{AllocError, Global};
use vcode::{Argument, Block, Extension, Jump, Line, Operand, Operation, ReturnValue};

/// Whether the operation extends a word that stands whole.
fn is_extension(
    marks: &[bool],
    operation: Operation,
    left: Operand<u32>,
    right: Operand<u32>,
) -> bool
    ensures { result ≡ is_extension marks.now operation left right }
{
    match operation {
        Operation::RegW(RegWOp::Addw) => match left {
            Operand::At(register) => match right {
                Operand::Number(number) => number == 0 && is_marked(marks, register),
                _ => false,
            },
            _ => false,
        },
        _ => false,
    }
}

/// Whether what is passed still has to be extended, of which something may be claimed already.
fn claim(marks: &[bool], value: Operand<u32>, claimed: Extension) -> Extension
    ensures { result ≡ claim marks.now value claimed }
{
    if is_whole(marks, value) {
        Extension::Claimed
    } else {
        claimed
    }
}

fn arguments(
    alloc: Global,
    marks: &[bool],
    from: &[Argument<u32>],
) -> Result<Seq<Argument<u32>>, AllocError>
    ensures { IfOk result (λ v. v ≡ map (with_claim marks.now) from.now) }
{
    let mut made = Vec::with_capacity(alloc, from.len())?;
    for argument in from {
        made.push(Argument {
            class: argument.class,
            value: argument.value,
            extension: claim(marks, argument.value, argument.extension),
        })?;
    }
    Ok(Seq::from_vec(made))
}

fn line(alloc: Global, marks: &[bool], from: &Line<u32>) -> Result<Line<u32>, AllocError>
    ensures { IfOk result (λ v. v ≡ with_copy marks.now from.now) }
{
    match from {
        Line::Tick { turn, weight } => Ok(Line::Tick {
            turn: *turn,
            weight: *weight,
        }),
        Line::Operate {
            to,
            operation,
            left,
            right,
        } => {
            if is_extension(marks, *operation, *left, *right) {
                Ok(Line::Set {
                    to: *to,
                    value: *left,
                })
            } else {
                from.try_clone(alloc)
            }
        }
        Line::Call { to, callee, args } => Ok(Line::Call {
            to: *to,
            callee: *callee,
            args: arguments(alloc, marks, args.as_slice())?,
        }),
        _ => from.try_clone(alloc),
    }
}

fn jump(marks: &[bool], from: Jump<u32>) -> Jump<u32>
    ensures { result ≡ jump_claim marks.now from }
{
    match from {
        Jump::Return(Some(returned)) => Jump::Return(Some(ReturnValue {
            value: returned.value,
            extension: claim(marks, returned.value, returned.extension),
        })),
        _ => from,
    }
}

fn lines(alloc: Global, marks: &[bool], from: &[Line<u32>]) -> Result<Seq<Line<u32>>, AllocError>
    ensures { IfOk result (λ v. v ≡ map (with_copy marks.now) from.now) }
{
    let mut made = Vec::with_capacity(alloc, from.len())?;
    for item in from {
        made.push(line(alloc, marks, item)?)?;
    }
    Ok(Seq::from_vec(made))
}

/// The blocks, in which extensions of marked registers are copies, and words in these are claimed to stand extended where they are passed.
pub fn blocks(
    alloc: Global,
    marks: &[bool],
    from: &[Block<u32>],
) -> Result<Seq<Block<u32>>, AllocError>
    ensures { IfOk result (λ v. v ≡ map (with_copies marks.now) from.now) }
{
    let mut made = Vec::with_capacity(alloc, from.len())?;
    for block in from {
        made.push(Block {
            lines: lines(alloc, marks, block.lines.as_slice())?,
            jump: jump(marks, block.jump),
        })?;
    }
    Ok(Seq::from_vec(made))
}
