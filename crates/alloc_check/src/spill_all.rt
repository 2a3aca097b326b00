//! Every register in a slot of its own.
ghost use Rattle.std.specs.Prelude.{◌≡◌, ◌++◌, map, drop, OnOk, IfOk};
ghost use Rattle.vcode.specs.declared.place.Location.TheVariants.{Slot};
ghost use Rattle.alloc_check.specs.Prelude.{placed_line, placed_block, placed_destination, in_slots};
ghost use Rattle.il_ast.specs.Prelude.{Keeps};
ghost use Rattle.vcode.specs.Prelude.{virtual_code, location_code, frame_bound, code_weight};

use crate::placing::{SlotForEach, destination, jump, line};
use il_ast::Seq;
use std::alloc::{AllocError, Global};
use vcode::{Block, Code, Destination, LFunc, Line, Location, VFunc};

fn push_params(
    placed: &mut Seq<Destination<Location>>,
    params: &[Destination<u32>],
) -> Result<(), AllocError>
    ensures { OnOk result (placed.new ≡ placed.old ++ map (placed_destination Slot) params.now) }
{
    for param in params {
        placed.push(destination(&SlotForEach, param))?;
    }
    Ok(())
}

fn push_lines(
    alloc: Global,
    placed: &mut Seq<Line<Location>>,
    lines: &[Line<u32>],
) -> Result<(), AllocError>
    ensures { OnOk result (placed.new ≡ placed.old ++ map (placed_line Slot) lines.now) }
{
    for from in lines {
        placed.push(line(alloc, &SlotForEach, from)?)?;
    }
    Ok(())
}

fn block_in_slots(alloc: Global, block: &Block<u32>) -> Result<Block<Location>, AllocError>
    ensures { IfOk result (λ b. b ≡ placed_block Slot block.now) }
{
    let mut lines = Seq::new(alloc);
    push_lines(alloc, &mut lines, block.lines.as_slice())?;
    Ok(Block {
        lines,
        jump: jump(&SlotForEach, &block.jump),
    })
}

fn push_blocks(
    alloc: Global,
    placed: &mut Seq<Block<Location>>,
    blocks: &[Block<u32>],
) -> Result<(), AllocError>
    ensures { OnOk result (placed.new ≡ placed.old ++ map (placed_block Slot) blocks.now) }
{
    for block in blocks {
        placed.push(block_in_slots(alloc, block)?)?;
    }
    Ok(())
}

fn code_in_slots(alloc: Global, code: &Code<u32>) -> Result<Code<Location>, AllocError>
    ensures { IfOk result (λ c. c ≡ in_slots code.now) }
{
    let mut params = Seq::new(alloc);
    push_params(&mut params, code.params.as_slice())?;
    let mut blocks = Seq::new(alloc);
    push_blocks(alloc, &mut blocks, code.blocks.as_slice())?;
    Ok(Code {
        result: code.result,
        params,
        blocks,
    })
}

/// The function with virtual register i in slot i, everywhere. It has as many slots as the function has registers, goes as the virtual code does, takes as
/// much of the stack, and weighs as much.
///
/// # Errors
///
/// Only where memory was refused.
pub fn spill_all(alloc: Global, function: &VFunc) -> Result<LFunc, AllocError>
    ensures code { IfOk result (λ l. l.code ≡ in_slots function.now.code) }
    ensures slots { IfOk result (λ l. l.slots ≡ function.now.registers) }
    ensures kept { IfOk result (λ l. Keeps (virtual_code function.now) (location_code l)) }
    ensures takes { IfOk result (λ l. frame_bound l.code l.slots ≡ frame_bound function.now.code function.now.registers) }
    ensures light { IfOk result (λ l. code_weight l.code ≡ code_weight function.now.code) }
{
    let code = code_in_slots(alloc, &function.code)?;
    Ok(LFunc {
        code,
        slots: function.registers,
    })
}
