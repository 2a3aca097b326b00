//! The code that a certificate makes.
ghost use Rattle.std.specs.Prelude.{◌≡◌, ◌++◌, ◌<◌, ◌^◌, OnOk, IfOk};
ghost use Rattle.alloc_check.specs.Prelude.{jump_point, transfers, certified_lines, certified_block, certified_blocks, certified_params, placed_by, end_point, moves_before, certified_line};

use crate::placing::{jump, line};
use crate::says::{By, moves_at, moves_before, places_at};
use certificates::{Certificate, Transfer};
use cfg_live::numbering::{jump_point, next_point};
use il_ast::Seq;
use std::alloc::{AllocError, Global};
use vcode::{Block, Code, Destination, Line, Location, Operand};

fn push_moves(placed: &mut Seq<Line<Location>>, moves: &[Transfer]) -> Result<(), AllocError>
    ensures { OnOk result (placed.new ≡ placed.old ++ transfers moves.now) }
{
    for m in moves {
        placed.push(Line::Set {
            to: m.to,
            value: Operand::At(m.from),
        })?;
    }
    Ok(())
}

fn push_point(
    alloc: Global,
    placed: &mut Seq<Line<Location>>,
    certificate: &Certificate,
    at: usize,
    from: &Line<u32>,
) -> Result<(), AllocError>
    ensures { OnOk result (placed.new ≡ placed.old ++ certified_line certificate.now at from.now) }
{
    if let Line::Tick { turn, weight } = from {
        return placed.push(Line::Tick {
            turn: *turn,
            weight: *weight,
        });
    }
    push_moves(placed, moves_before(certificate, at, from))?;
    let places = By {
        equalities: places_at(certificate, at),
    };
    let to = line(alloc, &places, from)?;
    placed.push(to)?;
    Ok(())
}

fn push_lines(
    alloc: Global,
    placed: &mut Seq<Line<Location>>,
    certificate: &Certificate,
    first: usize,
    lines: &[Line<u32>],
) -> Result<(), AllocError>
    requires { jump_point first lines.now < 2 ^ 64 }
    ensures { OnOk result (placed.new ≡ placed.old ++ certified_lines certificate.now first lines.now) }
{
    let mut at = first;
    for from in lines {
        push_point(alloc, placed, certificate, at, from)?;
        at = next_point(at, from);
    }
    push_moves(placed, moves_at(certificate, at))?;
    Ok(())
}

fn certified_block(
    alloc: Global,
    certificate: &Certificate,
    first: usize,
    block: &Block<u32>,
) -> Result<Block<Location>, AllocError>
    requires { jump_point first block.now.lines < 2 ^ 64 }
    ensures { IfOk result (λ b. b ≡ certified_block certificate.now first block.now) }
{
    let from = block.lines.as_slice();
    let mut lines = Seq::from_vec(Vec::with_capacity(alloc, from.len())?);
    push_lines(alloc, &mut lines, certificate, first, from)?;
    let places = By {
        equalities: places_at(certificate, jump_point(first, from)),
    };
    Ok(Block {
        lines,
        jump: jump(&places, &block.jump),
    })
}

fn push_blocks(
    alloc: Global,
    placed: &mut Seq<Block<Location>>,
    certificate: &Certificate,
    blocks: &[Block<u32>],
) -> Result<(), AllocError>
    requires { end_point 0 blocks.now < 2 ^ 64 }
    ensures { OnOk result (placed.new ≡ placed.old ++ certified_blocks certificate.now 0 blocks.now) }
{
    let mut first = 0usize;
    for block in blocks {
        let to = certified_block(alloc, certificate, first, block)?;
        placed.push(to)?;
        first = jump_point(first, block.lines.as_slice()) + 1;
    }
    Ok(())
}

fn push_params(
    placed: &mut Seq<Destination<Location>>,
    params: &[Destination<u32>],
    places: &[Location],
) -> Result<(), AllocError>
    ensures { OnOk result (placed.new ≡ placed.old ++ certified_params params.now places.now) }
{
    for (k, param) in params.iter().enumerate() {
        match places.get(k) {
            Some(place) => placed.push(Destination {
                place: *place,
                class: param.class,
            })?,
            None => return Ok(()),
        }
    }
    Ok(())
}

/// The code with the places and the moves of a certificate.
///
/// # Errors
///
/// Only where memory was refused.
pub(crate) fn certified(
    alloc: Global,
    code: &Code<u32>,
    certificate: &Certificate,
) -> Result<Code<Location>, AllocError>
    requires { end_point 0 code.now.blocks < 2 ^ 64 }
    ensures { IfOk result (λ l. l ≡ placed_by code.now certificate.now) }
{
    let mut params = Seq::new(alloc);
    push_params(
        &mut params,
        code.params.as_slice(),
        certificate.params.as_slice(),
    )?;
    let mut blocks = Seq::from_vec(Vec::with_capacity(alloc, code.blocks.len())?);
    push_blocks(alloc, &mut blocks, certificate, code.blocks.as_slice())?;
    Ok(Code {
        result: code.result,
        params,
        blocks,
    })
}
