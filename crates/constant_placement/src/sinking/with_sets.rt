//! Blocks that set registers where they begin.
ghost use Rattle.std.specs.Prelude.{◌≡◌, ◌++◌, ◌≤◌, length, take, map, true, IfOk, IfSome, OnOk};
ghost use Rattle.std.specs.List.{list_all};
ghost use Rattle.constant_placement.specs.Known.{plan_at, stay_known, set_line, with_sets, is_low, Sinks, IsSunk, AllSunk};

use crate::sinking::known::{Known, Plan, leads_well, place_at, plan_at, stay_known};
use il_ast::Seq;
use std::alloc::{AllocError, Global};
use vcode::cost::is_paid;
use vcode::line::push_lines;
use vcode::{Block, Line, Operand};

/// Whether the function has all these registers.
fn are_low(registers: u32, plan: &[Known]) -> bool
    ensures { result ≡ true → list_all (is_low registers) plan.now ≡ true }
{
    for known in plan {
        if known.register >= registers {
            return false;
        }
    }
    true
}

fn set_line(known: &Known) -> Line<u32>
    ensures { result ≡ set_line known.now }
{
    Line::Set {
        to: known.register,
        value: Operand::Number(known.number),
    }
}

fn push_sets(to: &mut Vec<Line<u32>>, plan: &[Known]) -> Result<(), AllocError>
    ensures { OnOk result (to.new.items ≡ to.old.items ++ map set_line plan.now) }
{
    for known in plan {
        to.push(set_line(known))?;
    }
    Ok(())
}

/// The lines with these between them.
fn with_sets(
    alloc: Global,
    front: &[Line<u32>],
    plan: &[Known],
    back: &[Line<u32>],
) -> Result<Vec<Line<u32>>, AllocError>
    ensures { IfOk result (λ v. v.items ≡ front.now ++ (map set_line plan.now ++ back.now)) }
{
    let mut made = Vec::with_capacity(alloc, front.len())?;
    push_lines(alloc, &mut made, front)?;
    push_sets(&mut made, plan)?;
    push_lines(alloc, &mut made, back)?;
    Ok(made)
}

/// The block with these behind so many of its lines.
fn planned(
    alloc: Global,
    place: usize,
    plan: &[Known],
    from: &Block<u32>,
) -> Result<Block<u32>, AllocError>
    requires { place ≤ length from.now.lines }
    ensures lines { IfOk result (λ d. d.lines ≡ with_sets place plan.now from.now.lines) }
    ensures jump { IfOk result (λ d. d.jump ≡ from.now.jump) }
{
    let (front, back) = from.lines.as_slice().split_at(place);
    let lines = with_sets(alloc, front, plan, back)?;
    Ok(Block {
        lines: Seq::from_vec(lines),
        jump: from.jump,
    })
}

/// Whether what is planned may stand there.
fn fits(registers: u32, place: usize, plan: &[Known], lines: &[Line<u32>]) -> bool
    ensures inside { result ≡ true → place ≤ length lines.now }
    ensures low { result ≡ true → list_all (is_low registers) plan.now ≡ true }
    ensures stay { result ≡ true → stay_known (take place lines.now) plan.now ≡ true }
{
    place <= lines.len() && are_low(registers, plan) && stay_known(&lines[..place], plan)
}

/// The block that sets what is planned, if its ticks pay for that, or else the block as it is.
fn sinks(
    alloc: Global,
    registers: u32,
    place: usize,
    plan: &[Known],
    from: &Block<u32>,
) -> Result<Block<u32>, AllocError>
    ensures { IfOk result (λ d. Sinks registers plan.now from.now d) }
{
    if fits(registers, place, plan, from.lines.as_slice()) {
        let made = planned(alloc, place, plan, from)?;
        if is_paid(&made) {
            return Ok(made);
        }
    }
    planned(alloc, 0, &[], from)
}

/// The blocks by these plans; none where what is planned of a block isn't known on each way there.
pub(crate) fn all_sunk(
    alloc: Global,
    registers: u32,
    plans: &[Plan],
    from: &[Block<u32>],
) -> Result<Option<Vec<Block<u32>>>, AllocError>
    ensures { IfOk result (λ o. IfSome o (λ v. AllSunk registers plans.now 0 from.now v.items)) }
{
    let mut made = Vec::with_capacity(alloc, from.len())?;
    for (number, block) in from.iter().enumerate() {
        if !leads_well(plans, number, block) {
            return Ok(None);
        }
        made.push(sinks(
            alloc,
            registers,
            place_at(plans, number),
            plan_at(plans, number),
            block,
        )?)?;
    }
    Ok(Some(made))
}
