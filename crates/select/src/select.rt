//! Virtual code, made from functions without phis.
ghost use Rattle.std.specs.Prelude.{◌≡◌, ◌≤◌, ◌+◌, ◌++◌, length, map, IfOk, OnOk};
ghost use Rattle.il_ast.specs.declared.limits.TheConstants.{FUNCTION_WEIGHT, TEMPORARIES};
ghost use Rattle.il_ast.specs.Prelude.{phi_count, need, weight, IsCodeOf};
ghost use Rattle.select.specs.Selected.{classes_in, selected};
ghost use Rattle.select.specs.Narrow.{listed, narrow_block, narrow_edge, narrow_blocks, narrow_code};
ghost use Rattle.vcode.specs.Prelude.{virtual_code, frame_bound, code_weight};

use crate::classes::classes;
use crate::instruction::push_turns;
use crate::leave::{jump_of, push_ending};
use crate::operand::{low_bits, parameters};
use il_ast::block::Block as SourceBlock;
use il_ast::{Class, Func, Seq};
use phi_copies::ending::Ending;
use phi_copies::no_phi::NoPhi;
use std::alloc::{AllocError, Global};
use vcode::{Block, Code, VFunc};

fn block_of(
    alloc: Global,
    classes: &[Class],
    block: &SourceBlock,
    ending: &Ending,
) -> Result<Block<u32>, AllocError>
    ensures { IfOk result (λ made. made ≡ narrow_block (listed classes.now) block.now ending.now) }
{
    let mut lines = Seq::new(alloc);
    push_turns(alloc, classes, &mut lines, block.insts.as_slice())?;
    push_ending(classes, &mut lines, ending)?;
    Ok(Block {
        lines,
        jump: jump_of(classes, ending.leave),
    })
}

/// A block with an ending alone.
fn edge_of(alloc: Global, classes: &[Class], ending: &Ending) -> Result<Block<u32>, AllocError>
    ensures { IfOk result (λ made. made ≡ narrow_edge (listed classes.now) ending.now) }
{
    let mut lines = Seq::new(alloc);
    push_ending(classes, &mut lines, ending)?;
    Ok(Block {
        lines,
        jump: jump_of(classes, ending.leave),
    })
}

/// Puts each block with its ending behind the others.
fn push_blocks(
    alloc: Global,
    classes: &[Class],
    made: &mut Seq<Block<u32>>,
    blocks: &[SourceBlock],
    endings: &[Ending],
) -> Result<(), AllocError>
    ensures { OnOk result (made.new ≡ made.old ++ narrow_blocks (listed classes.now) blocks.now endings.now) }
{
    for (number, block) in blocks.iter().enumerate() {
        match endings.get(number) {
            Some(ending) => made.push(block_of(alloc, classes, block, ending)?)?,
            None => return Ok(()),
        }
    }
    Ok(())
}

fn push_edges(
    alloc: Global,
    classes: &[Class],
    made: &mut Seq<Block<u32>>,
    edges: &[Ending],
) -> Result<(), AllocError>
    ensures { OnOk result (made.new ≡ made.old ++ map (narrow_edge (listed classes.now)) edges.now) }
{
    for ending in edges {
        made.push(edge_of(alloc, classes, ending)?)?;
    }
    Ok(())
}

#[tactic(auto, unfolding(crate::specs::Narrow::narrow_code))]
fn code_of(alloc: Global, classes: &[Class], source: &NoPhi<'_>) -> Result<Code<u32>, AllocError>
    ensures { IfOk result (λ code. code ≡ narrow_code (listed classes.now) source.now.func.now (record { endings = source.now.endings; edges = source.now.edges })) }
{
    let params = parameters(alloc, source.func.params.as_slice())?;
    let mut blocks = Seq::new(alloc);
    push_blocks(
        alloc,
        classes,
        &mut blocks,
        source.func.blocks.as_slice(),
        source.endings.as_slice(),
    )?;
    push_edges(alloc, classes, &mut blocks, source.edges.as_slice())?;
    Ok(Code {
        result: source.func.result,
        params,
        blocks,
    })
}

/// How many registers a function takes: one for each temporary, and one for each phi.
fn count_registers(func: &Func) -> usize
    requires { length func.now.temps + phi_count func.now ≤ FUNCTION_WEIGHT + TEMPORARIES }
    ensures { result ≡ length func.now.temps + phi_count func.now }
{
    let mut number = func.temps.len();
    for block in func.blocks.as_slice() {
        number += block.phis.len();
    }
    number
}

/// The virtual code of a function without phis. It has a register for each temporary of the function and each phi, and does what the function means, turn for
/// turn and for the same weight. With a slot for each register it takes no more of the stack than a call of the function is counted for,
/// and its ticks together weigh no more than the function.
///
/// # Errors
///
/// Only where memory was refused.
pub fn select(alloc: Global, source: &NoPhi<'_>) -> Result<VFunc, AllocError>
    ensures code { IfOk result (λ v. v.code ≡ selected (classes_in source.now.func.now) source.now.func.now (record { endings = source.now.endings; edges = source.now.edges })) }
    ensures registers { IfOk result (λ v. v.registers ≡ length source.now.func.now.temps + phi_count source.now.func.now) }
    ensures is { IfOk result (λ v. IsCodeOf source.now.func.now (virtual_code v)) }
    ensures takes { IfOk result (λ v. frame_bound v.code v.registers ≤ need source.now.func.now) }
    ensures light { IfOk result (λ v. code_weight v.code ≤ weight source.now.func.now) }
{
    let classes = classes(alloc, source.func)?;
    let code = code_of(alloc, classes.as_slice(), source)?;
    let registers = count_registers(source.func);
    Ok(VFunc {
        code,
        registers: low_bits(registers as u64),
    })
}
