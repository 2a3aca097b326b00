//! Functions without phis, made from functions.
ghost use Rattle.std.specs.Prelude.{◌≡◌, ◌*◌, ◌≤◌, [], true, IfOk};
ghost use Rattle.il_ast.specs.declared.limits.TheConstants.{FUNCTION_WEIGHT};
ghost use Rattle.phi_copies.specs.Good.{IsGoodFunction};
ghost use Rattle.phi_copies.specs.Keeping.{KeepsFunction};
ghost use Rattle.phi_copies.specs.Lowered.{IsBlockEnding, IsJumpEnding};
ghost use Rattle.std.proofs.Props.{props};

use crate::copies::entry_copies;
use crate::edges::{branch_target, edge_count, push_edges, straight};
use crate::ending::{Ending, Leave};
use crate::map::{Map, map_of, phis_at, target};
use crate::no_phi::NoPhi;
use il_ast::{Block, Func, Jump, Label, Seq};
use std::alloc::{AllocError, Global};

/// The function without its phis: at the end of each block stand the copies of the phis of the block that it goes to, or after a branch in blocks of their own.
///
/// It keeps what the function means, turn for turn, and spends what the function spends. The function is one of a good text. Want of memory is the only error.
pub fn lower<'a>(alloc: Global, func: &'a Func) -> Result<NoPhi<'a>, AllocError>
    requires { IsGoodFunction func.now }
    ensures same { IfOk result (λ lowered. lowered.func.now ≡ func.now) }
    ensures keeps { IfOk result (λ lowered. KeepsFunction func.now (record { endings = lowered.endings; edges = lowered.edges })) }
{
    let map = map_of(alloc, func)?;
    let mut endings = Vec::new(alloc);
    let mut edges = Vec::new(alloc);
    for block in func.blocks.as_slice() {
        endings.push(block_ending(alloc, &map, edges.len(), block)?)?;
        push_edges(alloc, &map, block, &mut edges)?;
    }
    Ok(NoPhi {
        func,
        endings: Seq::from_vec(endings),
        edges: Seq::from_vec(edges),
    })
}

/// The ending of a block, where so many edges stand before its own.
fn block_ending(
    alloc: Global,
    map: &Map<'_>,
    number: usize,
    block: &Block,
) -> Result<Ending, AllocError>
    requires { number ≤ 2 * FUNCTION_WEIGHT }
    ensures { IfOk result (λ ending. IsBlockEnding map.now.func.now number block.now ending) }
{
    match &block.jump {
        Some(jump) => jump_ending(alloc, map, block.label, number, &straight(&jump.item)),
        None => Ok(one_turn(alloc, Leave::Halt)),
    }
}

/// An ending of one turn, with nothing to copy.
fn one_turn(alloc: Global, leave: Leave) -> Ending
    ensures { result ≡ record { turn = true; weight = 1; copies = []; leave = leave } }
{
    Ending {
        turn: true,
        weight: 1,
        copies: Seq::new(alloc),
        leave,
    }
}

/// The ending for a jump.
fn jump_ending(
    alloc: Global,
    map: &Map<'_>,
    from: Label,
    number: usize,
    jump: &Jump,
) -> Result<Ending, AllocError>
    requires { number ≤ 2 * FUNCTION_WEIGHT }
    ensures { IfOk result (λ ending. IsJumpEnding map.now.func.now from number jump.now ending) }
{
    match *jump {
        Jump::Goto(label) => {
            let place = target(map, label);
            let copies = entry_copies(alloc, map, from, place)?;
            Ok(Ending {
                turn: true,
                weight: 1 + phis_at(map, place).len(),
                copies,
                leave: Leave::Goto(place),
            })
        }
        Jump::Branch {
            on,
            nonzero,
            otherwise,
        } => {
            let first = target(map, nonzero);
            let leave = Leave::Branch {
                on,
                nonzero: branch_target(map, number, first),
                otherwise: branch_target(
                    map,
                    number + edge_count(map, from, first),
                    target(map, otherwise),
                ),
            };
            Ok(one_turn(alloc, leave))
        }
        Jump::Return(value) => Ok(one_turn(alloc, Leave::Return(value))),
        Jump::Halt => Ok(one_turn(alloc, Leave::Halt)),
    }
}
