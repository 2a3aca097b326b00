//! Functions with calls of candidates done in place.
ghost use Rattle.std.specs.Prelude.{◌≡◌, ◌+◌, ◌++◌, ◌<◌, length, slice_index_or, IfOk, IfSome, OnOk};
ghost use Rattle.il_ast.specs.declared.limits.TheConstants.{FUNCTION_WEIGHT};
ghost use Rattle.vcode.specs.declared.function.VFunc.{VFunc as VFuncOf};
ghost use Rattle.vcode.specs.Prelude.{code_weight};
ghost use Rattle.inlining.specs.InPlace.{Candidates, Grows, KeepsCalls};
ghost use Rattle.inlining.specs.Growth.{IsGrowth, IsCut};

use crate::blocks::copied;
use crate::cut::cut_in;
use crate::growth::{Cut, Growth, Room, put, weight_behind};
use crate::limits::{BLOCKS, COPIES, LINES};
use crate::site::is_call_of;
use il_ast::Seq;
use il_ast::limits::FUNCTION_WEIGHT;
use std::alloc::{AllocError, Global};
use vcode::{Block, Code, VFunc};

/// The block at a place cut at a call that may be done in place, if it has one.
fn cut_of(
    alloc: Global,
    growth: &Growth,
    at: usize,
    candidates: &[Option<VFunc>],
) -> Result<Option<Cut>, AllocError>
    requires { at < length growth.now.blocks.items }
    ensures { IfOk result (λ o. IfSome o (λ c. IsCut candidates.now growth.now (slice_index_or growth.now.blocks.items at c.up_to) c)) }
{
    cut_in(alloc, growth, &growth.blocks[at], candidates)
}

/// The function with the first call of the block at a place that may be done in place done so.
fn with_call(
    alloc: Global,
    growth: Growth,
    at: usize,
    candidates: &[Option<VFunc>],
) -> Result<Growth, AllocError>
    requires { at < length growth.blocks.items }
    ensures { IfOk result (λ g. (v : VFuncOf) → IsGrowth candidates.now v growth → IsGrowth candidates.now v g) }
{
    match cut_of(alloc, &growth, at, candidates)? {
        Some(cut) => put(growth, at, cut),
        None => Ok(growth),
    }
}

fn push_copies(
    alloc: Global,
    to: &mut Vec<Block<u32>>,
    blocks: &[Block<u32>],
) -> Result<(), AllocError>
    ensures { OnOk result (to.new.items ≡ to.old.items ++ blocks.now) }
{
    for block in blocks {
        to.push(copied(alloc, block)?)?;
    }
    Ok(())
}

/// The function as it is, before a call is done in place.
fn as_it_is(alloc: Global, function: &VFunc, weight_left: u64) -> Result<Growth, AllocError>
    requires { code_weight function.now.code + weight_left ≡ FUNCTION_WEIGHT }
    ensures { IfOk result (λ g. (candidates : Candidates) → IsGrowth candidates function.now g) }
{
    let mut blocks = Vec::with_capacity(alloc, function.code.blocks.len())?;
    push_copies(alloc, &mut blocks, function.code.blocks.as_slice())?;
    Ok(Growth {
        blocks,
        room: Room {
            registers: function.registers,
            weight_left,
            lines_left: LINES,
            copies_left: COPIES,
        },
    })
}

/// The same; what is left of the block behind the call is a block that is due then.
fn placed_at(
    alloc: Global,
    growth: Growth,
    due: &mut Vec<usize>,
    at: usize,
    candidates: &[Option<VFunc>],
) -> Result<Growth, AllocError>
    ensures { IfOk result (λ g. (v : VFuncOf) → IsGrowth candidates.now v growth → IsGrowth candidates.now v g) }
{
    let count = growth.blocks.len();
    if at >= count {
        return Ok(growth);
    }
    let growth = with_call(alloc, growth, at, candidates)?;
    if growth.blocks.len() > count {
        due.push(count)?;
    }
    Ok(growth)
}

/// The function with calls done in place in each of its blocks, and not in those of candidates: so a function that calls itself stays short.
fn all_placed(
    alloc: Global,
    growth: Growth,
    candidates: &[Option<VFunc>],
) -> Result<Growth, AllocError>
    ensures { IfOk result (λ g. (v : VFuncOf) → IsGrowth candidates.now v growth → IsGrowth candidates.now v g) }
{
    let mut growth = growth;
    let mut due: Vec<usize> = (0..growth.blocks.len()).collect(alloc)?;
    for next in 0..BLOCKS {
        match due.get(next).copied() {
            Some(at) => growth = placed_at(alloc, growth, &mut due, at, candidates)?,
            None => break,
        }
    }
    Ok(growth)
}

/// The function with these blocks.
fn grown(
    alloc: Global,
    function: &VFunc,
    candidates: &[Option<VFunc>],
    growth: Growth,
) -> Result<VFunc, AllocError>
    requires { IsGrowth candidates.now function.now growth }
    ensures { IfOk result (λ w. Grows candidates.now function.now.code function.now.registers w.code w.registers) }
{
    let params = function.code.params.try_clone(alloc)?;
    Ok(VFunc {
        code: Code {
            result: function.code.result,
            params,
            blocks: Seq::from_vec(growth.blocks),
        },
        registers: growth.room.registers,
    })
}

fn with_calls(
    alloc: Global,
    function: &VFunc,
    candidates: &[Option<VFunc>],
    weight_left: u64,
) -> Result<VFunc, AllocError>
    requires { code_weight function.now.code + weight_left ≡ FUNCTION_WEIGHT }
    ensures { IfOk result (λ w. KeepsCalls candidates.now function.now.code w.code) }
{
    let begun = as_it_is(alloc, function, weight_left)?;
    let growth = all_placed(alloc, begun, candidates)?;
    let made = grown(alloc, function, candidates, growth)?;
    Ok(made)
}

fn calls_any(function: &VFunc, candidates: &[Option<VFunc>]) -> bool {
    let mut blocks = function.code.blocks.as_slice().iter();
    blocks.any(|block| {
        let mut lines = block.lines.as_slice().iter();
        lines.any(|line| is_call_of(line, candidates))
    })
}

/// The function with calls of candidates done in place. `candidates` has, for each global name of the function's text, the candidate that a call of it goes as, if it has one.
/// The candidates that may be called in place are small ones by the caller's choice: each call of one is done in place where a turn begins before it in its block and
/// no block of memory is made behind it there, until the function has 2,000 lines more, or as many registers, blocks or as much weight as it may have; calls that the candidates make stay. It takes
/// time and memory as the function and the lines that come are long.
///
/// # Errors
///
/// Only where memory was refused.
pub fn inline_calls(
    alloc: Global,
    function: VFunc,
    candidates: &[Option<VFunc>],
) -> Result<VFunc, AllocError>
    ensures { IfOk result (λ w. KeepsCalls candidates.now function.code w.code) }
{
    if !calls_any(&function, candidates) {
        return Ok(function);
    }
    match weight_behind(FUNCTION_WEIGHT, function.code.blocks.as_slice()) {
        Some(weight_left) => {
            let made = with_calls(alloc, &function, candidates, weight_left)?;
            Ok(made)
        }
        None => Ok(function),
    }
}
