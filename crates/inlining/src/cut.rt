//! Blocks that are cut at a call.
ghost use Rattle.std.specs.Prelude.{◌≡◌, ℕ, ◌+◌, ◌<◌, ◌∷◌, [], false, not, map, length, take, drop, slice_get, Some, IsTrue, IfOk, IfSome};
ghost use Rattle.std.specs.List.{list_all, list_any};
ghost use Rattle.vcode.specs.Prelude.{is_alloc};
ghost use Rattle.vcode.specs.declared.limits.TheConstants.{PLACES};
ghost use Rattle.inlining.specs.declared.limits.TheConstants.{BLOCKS};
ghost use Rattle.inlining.specs.InPlace.{begins_turn, candidate_block, behind_call, site_of};
ghost use Rattle.inlining.specs.Growth.{StandsAt, IsMade, IsCut};

use crate::blocks::{CallSite, behind_call, push_candidate, up_to_call};
use crate::candidate::begins_turn;
use crate::growth::{Cut, Growth, Room, room_behind};
use crate::limits::TRIES;
use crate::site::{answers, are_paid, is_call_of, up_to_allocs};
use std::alloc::{AllocError, Global};
use vcode::cost::is_paid;
use vcode::{Block, Line, Operand, VFunc};

/// The rest of the block behind the call, which this line is, and the candidate's blocks.
fn blocks_behind(
    alloc: Global,
    behind: usize,
    base: u32,
    line: usize,
    site: &CallSite<'_>,
    candidate: &VFunc,
) -> Result<Vec<Block<u32>>, AllocError>
    requires line { line < length site.now.block.now.lines }
    requires few { behind + length candidate.now.code.blocks < BLOCKS }
    requires base { base < PLACES }
    ensures { IfOk result (λ v. v.items ≡ behind_call line (site_of site.now) ∷ map (candidate_block (behind + 1) behind base candidate.now.code.result site.now.to) candidate.now.code.blocks) }
{
    let blocks = candidate.code.blocks.as_slice();
    let mut made = Vec::new(alloc);
    made.push(behind_call(alloc, line, site)?)?;
    push_candidate(
        alloc,
        base,
        candidate.code.result,
        site.to,
        behind,
        &mut made,
        blocks,
    )?;
    Ok(made)
}

/// The block cut at the call, which this line is, if there is room for the candidate and the ticks pay.
fn cut_for(
    alloc: Global,
    growth: &Growth,
    line: usize,
    site: &CallSite<'_>,
    candidate: &VFunc,
) -> Result<Option<Cut>, AllocError>
    requires line { line < length site.now.block.now.lines }
    ensures { IfOk result (λ o. IfSome o (λ c. IsMade growth.now.room (length growth.now.blocks.items) candidate.now line (site_of site.now) c)) }
{
    let count = growth.blocks.len();
    let base = growth.room.registers;
    let room = match room_behind(growth.room, count, site.block.lines.len(), candidate) {
        Some(room) => room,
        None => return Ok(None),
    };
    let up_to = up_to_call(
        alloc,
        count,
        base,
        line,
        candidate.code.params.as_slice(),
        site,
    )?;
    let behind = blocks_behind(alloc, count, base, line, site, candidate)?;
    if is_paid(&up_to) && are_paid(behind.as_slice()) {
        Ok(Some(Cut {
            up_to,
            behind,
            room,
        }))
    } else {
        Ok(None)
    }
}

/// The block cut at the call, which this line is, if it is of one of the candidates and may be done in place.
fn cut_at_call(
    alloc: Global,
    growth: &Growth,
    line: usize,
    site: &CallSite<'_>,
    candidates: &[Option<VFunc>],
) -> Result<Option<Cut>, AllocError>
    requires line { line < length site.now.block.now.lines }
    requires stands { StandsAt line (site_of site.now) }
    ensures { IfOk result (λ o. IfSome o (λ c. IsCut candidates.now growth.now site.now.block.now c)) }
{
    match candidates.get(site.name.number()) {
        Some(candidate) => match candidate {
            Some(candidate) => {
                if answers(candidate, site) {
                    cut_for(alloc, growth, line, site, candidate)
                } else {
                    Ok(None)
                }
            }
            None => Ok(None),
        },
        None => Ok(None),
    }
}

/// The block cut at this line, if it is a call of one of the candidates that may be done in place.
fn cut_at(
    alloc: Global,
    growth: &Growth,
    block: &Block<u32>,
    line: usize,
    candidates: &[Option<VFunc>],
) -> Result<Option<Cut>, AllocError>
    requires line { line < length block.now.lines }
    requires turn { IsTrue (list_any begins_turn (take line block.now.lines)) }
    requires plain { IsTrue (not (list_any is_alloc (drop (line + 1) block.now.lines))) }
    ensures { IfOk result (λ o. IfSome o (λ c. IsCut candidates.now growth.now block.now c)) }
{
    match &block.lines.as_slice()[line] {
        Line::Call { to, callee, args } => match callee {
            Operand::Name(name) => {
                let site = CallSite {
                    block,
                    to: *to,
                    name: *name,
                    args: args.as_slice(),
                };
                cut_at_call(alloc, growth, line, &site, candidates)
            }
            Operand::At(_) | Operand::Number(_) => Ok(None),
        },
        _ => Ok(None),
    }
}

/// The block cut at the first call of one of the candidates that may be done in place, if there is one.
pub(crate) fn cut_in(
    alloc: Global,
    growth: &Growth,
    block: &Block<u32>,
    candidates: &[Option<VFunc>],
) -> Result<Option<Cut>, AllocError>
    ensures { IfOk result (λ o. IfSome o (λ c. IsCut candidates.now growth.now block.now c)) }
{
    let lines = block.lines.as_slice();
    let start = up_to_allocs(lines);
    let mut turned = false;
    let mut tries = 0;
    for (number, line) in lines.iter().enumerate() {
        if turned && start <= number && tries < TRIES && is_call_of(line, candidates) {
            if let Some(cut) = cut_at(alloc, growth, block, number, candidates)? {
                return Ok(Some(cut));
            }
            tries += 1;
        }
        turned = turned || begins_turn(line);
    }
    Ok(None)
}
