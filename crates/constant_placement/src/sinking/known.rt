//! What registers are known to hold where blocks begin and end.
ghost use Rattle.std.specs.Prelude.{◌≡◌, true};
ghost use Rattle.std.specs.List.{list_all, list_any};
ghost use Rattle.constant_placement.specs.Known.{same, is_planned, sets, known_behind, known_at_end, stay_known, plan_at, are_known, leads_well};

use cfg_live::uses::line_writes;
use il_ast::Seq;
use vcode::{Block, Jump, Line, Operand};

/// The register holds the number.
#[derive(Clone, Copy)]
pub struct Known {
    pub register: u32,
    pub number: u64,
}

/// What a block is to set, behind so many of its lines.
#[derive(Drop)]
pub struct Plan {
    pub behind: usize,
    pub sets: Seq<Known>,
}

fn same(one: &Known, other: &Known) -> bool
    ensures { result ≡ same one.now other.now }
{
    one.register == other.register && one.number == other.number
}

/// Whether the plan has it.
fn is_planned(plan: &[Known], wanted: &Known) -> bool
    ensures { result ≡ is_planned plan.now wanted.now }
{
    plan.iter().any(|known| same(wanted, known))
}

/// Whether the line sets its register to this number.
fn sets(line: &Line<u32>, number: u64) -> bool
    ensures { result ≡ sets line.now number }
{
    match line {
        Line::Set {
            value: Operand::Number(value),
            ..
        } => *value == number,
        _ => false,
    }
}

/// Whether it is known behind a line, where it is known before the line if `known`.
fn known_behind(line: &Line<u32>, wanted: &Known, known: bool) -> bool
    ensures { result ≡ known_behind line.now wanted.now known }
{
    match line_writes(line) {
        Some(register) => {
            if register == wanted.register {
                sets(line, wanted.number)
            } else {
                known
            }
        }
        None => known,
    }
}

/// Whether it is known behind these lines, where it is known before them if `known`.
fn known_at_end(lines: &[Line<u32>], wanted: &Known, known: bool) -> bool
    ensures { result ≡ known_at_end lines.now wanted.now known }
{
    let mut known = known;
    for line in lines {
        known = known_behind(line, wanted, known);
    }
    known
}

/// What the block is to set.
pub(crate) fn plan_at(plans: &[Plan], block: usize) -> &[Known]
    ensures { result.now ≡ plan_at plans.now block }
{
    match plans.get(block) {
        Some(plan) => plan.sets.as_slice(),
        None => &[],
    }
}

/// Behind how many of its lines.
pub(crate) fn place_at(plans: &[Plan], block: usize) -> usize {
    plans.get(block).map_or(0, |plan| plan.behind)
}

/// Whether all that is planned stays known behind these lines.
pub(crate) fn stay_known(lines: &[Line<u32>], plan: &[Known]) -> bool
    ensures { result ≡ true → stay_known lines.now plan.now ≡ true }
{
    for known in plan {
        if !known_at_end(lines, known, true) {
            return false;
        }
    }
    true
}

/// Whether all that is wanted is known behind these lines, in front of which the plan is known.
fn are_known(plan: &[Known], lines: &[Line<u32>], wanted: &[Known]) -> bool
    ensures { result ≡ true → are_known plan.now lines.now wanted.now ≡ true }
{
    for one in wanted {
        if !known_at_end(lines, one, is_planned(plan, one)) {
            return false;
        }
    }
    true
}

/// Whether what is planned of each block that a block's jump may lead to is known there.
pub(crate) fn leads_well(plans: &[Plan], number: usize, block: &Block<u32>) -> bool
    ensures { result ≡ true → leads_well plans.now (plan_at plans.now number) block.now.lines block.now.jump ≡ true }
{
    let plan = plan_at(plans, number);
    let lines = block.lines.as_slice();
    match &block.jump {
        Jump::Goto(to) => are_known(plan, lines, plan_at(plans, *to)),
        Jump::Branch { met, otherwise, .. } => {
            are_known(plan, lines, plan_at(plans, *met))
                && are_known(plan, lines, plan_at(plans, *otherwise))
        }
        Jump::Return(_) | Jump::Halt => true,
    }
}
