//! Plans for loops, one after another.
use crate::choice::choose::{Plans, plan_block};
use crate::choice::dominators::{Dominator, Graph, dominators_of};
use crate::choice::growing::{find_growth, plan_steps};
use crate::choice::written::Written;
use flow::loops::{Loop, find_loops, largest_first};
use std::alloc::{AllocError, Global};
use vcode::{Block, VFunc};

/// More than all computations in front of a loop cost.
const PLENTY: u128 = 1_000_000;

/// What is the same for all loops of a function.
#[derive(Drop)]
struct Setting<'a> {
    blocks: &'a [Block<u32>],

    /// made when it is first asked for
    graph: Option<Graph>,
}

/// The dominators of the block in front of a loop.
fn dominators(
    alloc: Global,
    setting: &mut Setting<'_>,
    before: usize,
) -> Result<Vec<Dominator>, AllocError> {
    if setting.graph.is_none() {
        setting.graph = Some(Graph::new(alloc, setting.blocks)?);
    }
    match &setting.graph {
        Some(graph) => dominators_of(alloc, graph, setting.blocks, before),
        None => Ok(Vec::new(alloc)),
    }
}

fn count_writes(written: &mut Written, blocks: &[Block<u32>], nest: &Loop) {
    written.begin();
    for number in nest.blocks.iter() {
        if let Some(block) = blocks.get(*number) {
            written.count(block.lines.as_slice());
        }
    }
}

/// Plans for the lines of a loop.
fn plan_lines(
    plans: &mut Plans,
    written: &mut Written,
    setting: &Setting<'_>,
    nest: &Loop,
) -> Result<(), AllocError> {
    count_writes(written, setting.blocks, nest);
    find_growth(written, setting.blocks, nest)?;
    plans.sums.clear();
    for number in nest.blocks.iter() {
        if let Some(block) = setting.blocks.get(*number) {
            plan_block(plans, written, nest.before, *number, block)?;
        }
    }
    Ok(())
}

fn credit_of(plans: &Plans, block: usize) -> u128 {
    plans.credits.get(block).copied().unwrap_or(0)
}

/// No plans for this loop, and so much credit in front of it.
fn take_back(plans: &mut Plans, next: u32, before: usize, credit: u128) {
    plans.list.truncate(plans.first);
    plans.next = next;
    if let Some(left) = plans.credits.get_mut(before) {
        *left = credit;
    }
}

/// The plans once more, some of them in blocks that dominate the one in front of the loop, which had so much credit and couldn't pay for all.
fn plan_further(
    plans: &mut Plans,
    written: &mut Written,
    setting: &Setting<'_>,
    nest: &Loop,
    next: u32,
    credit: u128,
) -> Result<(), AllocError> {
    take_back(plans, next, nest.before, PLENTY);
    plan_lines(plans, written, setting, nest)?;
    let wanted = PLENTY.saturating_sub(credit_of(plans, nest.before));
    take_back(plans, next, nest.before, credit);
    plans.owed = wanted.saturating_sub(credit);
    plan_lines(plans, written, setting, nest)?;
    plans.owed = 0;
    Ok(())
}

fn plan_nest(
    alloc: Global,
    plans: &mut Plans,
    written: &mut Written,
    setting: &mut Setting<'_>,
    nest: &Loop,
) -> Result<(), AllocError> {
    let next = plans.next;
    let credit = credit_of(plans, nest.before);
    plans.first = plans.list.len();
    plans.is_short = false;
    plan_lines(plans, written, setting, nest)?;
    if plans.is_short {
        plans.dominators = dominators(alloc, setting, nest.before)?;
        if plans.dominators.len() > 1 {
            plan_further(plans, written, setting, nest, next, credit)?;
        }
    }
    plan_steps(plans, written, nest)
}

/// Plans for these loops, the outer ones before the inner ones.
fn plan_in_order(
    alloc: Global,
    plans: &mut Plans,
    function: &VFunc,
    nests: &[Loop],
) -> Result<(), AllocError> {
    let blocks = function.code.blocks.as_slice();
    let mut setting = Setting {
        blocks,
        graph: None,
    };
    let mut written = Written::new(alloc, function.registers, blocks)?;
    for (_, number) in largest_first(alloc, nests)?.iter() {
        if let Some(nest) = nests.get(*number) {
            plan_nest(alloc, plans, &mut written, &mut setting, nest)?;
        }
    }
    Ok(())
}

/// Plans for the loops of a function.
///
/// # Errors
///
/// Only where memory was refused.
pub(crate) fn plan_nests(
    alloc: Global,
    plans: &mut Plans,
    function: &VFunc,
) -> Result<(), AllocError> {
    let mut nests = Vec::new(alloc);
    find_loops(alloc, &mut nests, function.code.blocks.as_slice())?;
    if nests.is_empty() {
        Ok(())
    } else {
        plan_in_order(alloc, plans, function, nests.as_slice())
    }
}
