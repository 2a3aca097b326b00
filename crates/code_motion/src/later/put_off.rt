//! Functions in which sums stand behind the last lines that read what they are sums of.
ghost use Rattle.std.specs.Prelude.{◌≡◌, ℕ, List, [], ◌∷◌, None, true, IfOk, IfSome, OnOk};
ghost use Rattle.il_ast.specs.Prelude.{Keeps};
ghost use Rattle.vcode.specs.declared.line.Line.{Line as ALine};
ghost use Rattle.vcode.specs.Prelude.{virtual_code};
ghost use Rattle.code_motion.specs.Later.{line_of, may_wait, lets_wait, AreLater, Makes, IsLater, AllLater};

use crate::later::choice::{is_any_put_off, place_of};
use crate::later::waiting::{Waiting, lets_wait, operation_of};
use il_ast::Seq;
use std::alloc::{AllocError, Global};
use vcode::cost::is_paid;
use vcode::line::push_lines;
use vcode::{Block, Line, VFunc};

/// What is put off, if something is, and the number of the line in front of which it has to be done.
#[derive(Clone, Copy)]
struct PutOff {
    waiting: Option<Waiting>,
    due: usize,
}

/// Does what was put off, if it can't be put off over the line, or is due.
fn settle(
    made: &mut Vec<Line<u32>>,
    waiting: Option<Waiting>,
    is_due: bool,
    line: &Line<u32>,
) -> Result<Option<Waiting>, AllocError>
    ensures lets { IfOk result (λ q. IfSome q (λ p. lets_wait p line.now ≡ true)) }
    ensures makes { IfOk result (λ q. (all ls : List (ALine ℕ)) → Makes all made.old.items waiting (line.now ∷ ls) → Makes all made.new.items q (line.now ∷ ls)) }
{
    match waiting {
        Some(operation) => {
            if !is_due && lets_wait(&operation, line) {
                Ok(Some(operation))
            } else {
                made.push(operation.line())?;
                Ok(None)
            }
        }
        None => Ok(None),
    }
}

/// The operation of a line that is put off from there on.
fn begun(waiting: &Option<Waiting>, is_put_off: bool, line: &Line<u32>) -> Option<Waiting>
    ensures free { IfSome result (λ p. waiting.now ≡ None) }
    ensures line { IfSome result (λ p. line.now ≡ line_of p) }
    ensures may { IfSome result (λ p. may_wait p ≡ true) }
{
    match waiting {
        Some(_) => None,
        None => { if is_put_off { operation_of(line) } else { None } }
    }
}

/// One line: it is done, or its operation is put off.
fn go_on(
    alloc: Global,
    made: &mut Vec<Line<u32>>,
    waiting: Option<Waiting>,
    is_put_off: bool,
    line: &Line<u32>,
) -> Result<Option<Waiting>, AllocError>
    requires { IfSome waiting (λ p. lets_wait p line.now ≡ true) }
    ensures { IfOk result (λ q. (all ls : List (ALine ℕ)) → Makes all made.old.items waiting (line.now ∷ ls) → Makes all made.new.items q ls) }
{
    match begun(&waiting, is_put_off, line) {
        Some(begun) => Ok(Some(begun)),
        None => {
            made.push(line.try_clone(alloc)?)?;
            Ok(waiting)
        }
    }
}

/// Does what was put off to the end.
fn finish(made: &mut Vec<Line<u32>>, waiting: Option<Waiting>) -> Result<(), AllocError>
    ensures { OnOk result ((all : List (ALine ℕ)) → Makes all made.old.items waiting [] → AreLater None all made.new.items) }
{
    match waiting {
        Some(operation) => {
            made.push(operation.line())?;
            Ok(())
        }
        None => Ok(()),
    }
}

/// One line of a block, behind `made`, of which the one with the number `due` is the first in front of which what is put off has to be done.
fn pass(
    alloc: Global,
    made: &mut Vec<Line<u32>>,
    put_off: PutOff,
    from: &[Line<u32>],
    number: usize,
    line: &Line<u32>,
) -> Result<PutOff, AllocError>
    ensures { IfOk result (λ q. (all ls : List (ALine ℕ)) → Makes all made.old.items put_off.waiting (line.now ∷ ls) → Makes all made.new.items q.waiting ls) }
{
    let waiting = settle(made, put_off.waiting, put_off.due <= number, line)?;
    let place = place_of(from, number);
    let due = match (waiting, place) {
        (None, Some(place)) => place,
        _ => put_off.due,
    };
    let waiting = go_on(alloc, made, waiting, place.is_some(), line)?;
    Ok(PutOff { waiting, due })
}

/// The lines of a block with what is put off where it is done.
fn later_lines(alloc: Global, from: &[Line<u32>]) -> Result<Vec<Line<u32>>, AllocError>
    ensures { IfOk result (λ v. AreLater None from.now v.items) }
{
    let mut made = Vec::with_capacity(alloc, from.len())?;
    let mut put_off = PutOff {
        waiting: None,
        due: 0,
    };
    for (number, line) in from.iter().enumerate() {
        put_off = pass(alloc, &mut made, put_off, from, number, line)?;
    }
    finish(&mut made, put_off.waiting)?;
    Ok(made)
}

/// The same block.
fn copy(alloc: Global, from: &Block<u32>) -> Result<Block<u32>, AllocError>
    ensures { IfOk result (λ d. d ≡ from.now) }
{
    let mut lines = Vec::with_capacity(alloc, from.lines.len())?;
    push_lines(alloc, &mut lines, from.lines.as_slice())?;
    Ok(Block {
        lines: Seq::from_vec(lines),
        jump: from.jump,
    })
}

/// The block with what is put off, if its ticks still pay in time.
fn later(alloc: Global, from: &Block<u32>) -> Result<Block<u32>, AllocError>
    ensures { IfOk result (λ d. IsLater from.now d) }
{
    let lines = later_lines(alloc, from.lines.as_slice())?;
    let block = Block {
        lines: Seq::from_vec(lines),
        jump: from.jump,
    };
    if is_paid(&block) {
        Ok(block)
    } else {
        copy(alloc, from)
    }
}

fn all_later(alloc: Global, from: &[Block<u32>]) -> Result<Vec<Block<u32>>, AllocError>
    ensures { IfOk result (λ v. AllLater from.now v.items) }
{
    let mut made = Vec::with_capacity(alloc, from.len())?;
    for block in from {
        made.push(later(alloc, block)?)?;
    }
    Ok(made)
}

/// So many sums of a block are put off over one another, at most.
const ROUNDS: usize = 4;

/// The function with sums put off, none of them over another one that is.
fn put_off_some(alloc: Global, function: &VFunc) -> Result<VFunc, AllocError>
    ensures { IfOk result (λ w. Keeps (virtual_code function.now) (virtual_code w)) }
{
    let made = all_later(alloc, function.code.blocks.as_slice())?;
    function.with_blocks(alloc, function.registers, Seq::from_vec(made))
}

/// The function with its sums of a register and a number behind the last lines that read that register.
///
/// # Errors
///
/// Only where memory was refused.
pub fn put_off_sums(alloc: Global, function: &VFunc) -> Result<Option<VFunc>, AllocError>
    ensures { IfOk result (λ o. IfSome o (λ w. Keeps (virtual_code function.now) (virtual_code w))) }
{
    if !is_any_put_off(function.code.blocks.as_slice()) {
        return Ok(None);
    }
    let first = put_off_some(alloc, function)?;
    let mut made = first;
    for _round in 1..ROUNDS {
        if !is_any_put_off(made.code.blocks.as_slice()) {
            break;
        }
        let next = put_off_some(alloc, &made)?;
        made = next;
    }
    Ok(Some(made))
}
