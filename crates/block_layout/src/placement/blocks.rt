//! Blocks in an order.
ghost use Rattle.std.specs.Prelude.{◌≡◌, ◌&&◌, ℕ, map, IfOk};
ghost use Rattle.block_layout.specs.Ordered.{block_at, led, placed, ArePlaces};

use crate::placement::places::place;
use il_ast::Seq;
use std::alloc::{AllocError, Global};
use vcode::line::push_lines;
use vcode::{Block, Jump, Line};

/// The jump to where its targets stand in the order.
fn led(order: &[usize], places: &[usize], jump: &Jump<u32>) -> Jump<u32>
    requires { ArePlaces order.now places.now }
    ensures { result ≡ led order.now jump.now }
{
    match jump {
        Jump::Goto(block) => Jump::Goto(place(order, places, *block)),
        Jump::Branch { on, met, otherwise } => Jump::Branch {
            on: *on,
            met: place(order, places, *met),
            otherwise: place(order, places, *otherwise),
        },
        Jump::Return(value) => Jump::Return(*value),
        Jump::Halt => Jump::Halt,
    }
}

fn lines(alloc: Global, from: &[Line<u32>]) -> Result<Seq<Line<u32>>, AllocError>
    ensures { IfOk result (λ v. v ≡ from.now) }
{
    let mut made = Vec::with_capacity(alloc, from.len())?;
    push_lines(alloc, &mut made, from)?;
    Ok(Seq::from_vec(made))
}

/// The block of that number as it stands in the order.
fn placed(
    alloc: Global,
    order: &[usize],
    places: &[usize],
    blocks: &[Block<u32>],
    number: usize,
) -> Result<Block<u32>, AllocError>
    requires { ArePlaces order.now places.now }
    ensures { IfOk result (λ b. b ≡ placed order.now (block_at blocks.now number)) }
{
    match blocks.get(number) {
        Some(block) => Ok(Block {
            lines: lines(alloc, block.lines.as_slice())?,
            jump: led(order, places, &block.jump),
        }),
        None => Ok(Block {
            lines: Seq::new(alloc),
            jump: Jump::Halt,
        }),
    }
}

/// The blocks that the order names, in that order, with jumps to where their targets stand there.
pub(crate) fn blocks_in_order(
    alloc: Global,
    order: &[usize],
    places: &[usize],
    blocks: &[Block<u32>],
) -> Result<Seq<Block<u32>>, AllocError>
    requires { ArePlaces order.now places.now }
    ensures { IfOk result (λ v. v ≡ map (λ k. placed order.now (block_at blocks.now k)) order.now) }
{
    let mut made = Vec::with_capacity(alloc, order.len())?;
    for number in order {
        made.push(placed(alloc, order, places, blocks, *number)?)?;
    }
    Ok(Seq::from_vec(made))
}
