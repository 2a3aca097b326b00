//! The blocks between a branch and a block with phis.
ghost use Rattle.std.specs.Prelude.{◌≡◌, ◌+◌, ◌*◌, ◌≤◌, length, OnOk};
ghost use Rattle.il_ast.specs.declared.limits.TheConstants.{FUNCTION_WEIGHT};
ghost use Rattle.phi_copies.specs.Lowered.{edge, block_edges, branch_target, straight, Adds};

use crate::copies::entry_copies;
use crate::ending::{Ending, Leave};
use crate::map::{Map, phis_at, target};
use il_ast::{Block, Jump, Label};
use std::alloc::{AllocError, Global};

/// How many edges stand between the block of a label and the block at a place: one where that has phis, else none.
pub fn edge_count(map: &Map<'_>, from: Label, place: usize) -> usize
    ensures { result ≡ length (edge map.now.func.now from place) }
{
    if phis_at(map, place).is_empty() { 0 } else { 1 }
}

/// Where a branch to the block at a place goes: to the block, or to the edge of that number.
pub fn branch_target(map: &Map<'_>, number: usize, place: usize) -> usize
    requires { number ≤ 2 * FUNCTION_WEIGHT + 1 }
    ensures { result ≡ branch_target map.now.func.now number place }
{
    if phis_at(map, place).is_empty() {
        place
    } else {
        map.func.blocks.len() + number
    }
}

/// Puts the edge from the block of a label to the block at a place behind the others, if that has phis.
fn push_edge(
    alloc: Global,
    map: &Map<'_>,
    from: Label,
    place: usize,
    edges: &mut Vec<Ending>,
) -> Result<(), AllocError>
    ensures { OnOk result (Adds map.now.func.now (edge map.now.func.now from place) edges.old.items edges.new.items) }
{
    let phis = phis_at(map, place);
    if phis.is_empty() {
        return Ok(());
    }
    let copies = entry_copies(alloc, map, from, place)?;
    edges.push(Ending {
        turn: false,
        weight: phis.len(),
        copies,
        leave: Leave::Goto(place),
    })?;
    Ok(())
}

/// The jump, where a branch that leads to one block by both ways is a jump there.
pub fn straight(jump: &Jump) -> Jump
    ensures { result ≡ straight jump.now }
{
    match *jump {
        Jump::Branch {
            on,
            nonzero,
            otherwise,
        } => {
            if nonzero.number() == otherwise.number() {
                Jump::Goto(nonzero)
            } else {
                Jump::Branch {
                    on,
                    nonzero,
                    otherwise,
                }
            }
        }
        Jump::Goto(label) => Jump::Goto(label),
        Jump::Return(value) => Jump::Return(value),
        Jump::Halt => Jump::Halt,
    }
}

/// Puts the edges of a block behind the others.
pub fn push_edges(
    alloc: Global,
    map: &Map<'_>,
    block: &Block,
    edges: &mut Vec<Ending>,
) -> Result<(), AllocError>
    ensures { OnOk result (Adds map.now.func.now (block_edges map.now.func.now block.now) edges.old.items edges.new.items) }
{
    match &block.jump {
        Some(jump) => match straight(&jump.item) {
            Jump::Branch {
                on: _,
                nonzero,
                otherwise,
            } => {
                push_edge(alloc, map, block.label, target(map, nonzero), edges)?;
                push_edge(alloc, map, block.label, target(map, otherwise), edges)?;
                Ok(())
            }
            Jump::Goto(_) => Ok(()),
            Jump::Return(_) => Ok(()),
            Jump::Halt => Ok(()),
        },
        None => Ok(()),
    }
}
