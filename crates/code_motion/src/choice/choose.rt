//! Plans for computations in front of loops.
use crate::choice::candidates::may_plan;
use crate::choice::credit::credit;
use crate::choice::dominators::Dominator;
use crate::choice::growing::{Linear, product_of};
use crate::choice::nests::plan_nests;
use crate::choice::offsets::plan_offsets;
use crate::choice::reads::count_reads;
use crate::choice::written::{Spot, Sum, Written};
use crate::plan::{BlockPlan, Computation, Plan};
use rv_isa::{RegOp, RegWOp};
use std::alloc::{AllocError, Global};
use vcode::cost::line_cost;
use vcode::limits::PLACES;
use vcode::{Block, Line, Operand, Operation, VFunc};

/// How many computations are done in front of a loop, at most.
const MOST: usize = 32;

/// The plans that are made, one loop after another.
#[derive(Drop)]
pub(crate) struct Plans {
    pub(crate) list: Vec<Computation>,

    /// the first one of this loop
    pub(crate) first: usize,

    /// the next register that the function doesn't have
    pub(crate) next: u32,

    /// of each block, what its ticks still leave
    pub(crate) credits: Vec<u128>,

    /// where computations for this loop may stand besides, the furthest from it first
    pub(crate) dominators: Vec<Dominator>,

    /// how much of the computations for this loop the block in front of it can't pay
    pub(crate) owed: u128,

    /// whether that block couldn't pay for one
    pub(crate) is_short: bool,

    /// sums with products of registers that grow, in this loop
    pub(crate) sums: Vec<Linear>,
}

/// Whether a computation is worth a register: not where it is part of an address, a branch, or the same everywhere.
fn is_worth(plan: &Computation) -> bool {
    match (plan.operation, plan.left, plan.right) {
        (Operation::Compare(_, _), _, _) => false,
        (Operation::Reg(RegOp::Add), Operand::At(_), Operand::Number(_)) => false,
        (_, Operand::At(_), _) => true,
        (_, _, Operand::At(_)) => true,
        _ => false,
    }
}

/// Takes from the credit of a block what a line costs, if it leaves that.
pub(crate) fn pay(credits: &mut [u128], block: usize, line: &Line<u32>) -> bool {
    match credits.get_mut(block) {
        Some(left) => {
            let cost = line_cost(line);
            let affords = cost <= *left;
            *left = left.saturating_sub(cost);
            affords
        }
        None => false,
    }
}

/// The block that computes the operand for this loop, if one does.
fn maker(plans: &Plans, operand: &Operand<u32>) -> Option<usize> {
    let Operand::At(register) = operand else {
        return None;
    };
    let mut made = plans.list.iter().skip(plans.first);
    let plan = made.find(|plan| plan.register == *register)?;
    Some(plan.block)
}

/// The furthest block that dominates the loop, has both operands and can pay for the computation, where the block in front of the loop can't pay for all.
fn further(plans: &Plans, plan: &Computation, cost: u128) -> Option<usize> {
    if plans.owed == 0 {
        return None;
    }
    let (mut left, mut right) = (maker(plans, &plan.left), maker(plans, &plan.right));
    for dominator in plans.dominators.iter() {
        left = left.filter(|block: &usize| *block != dominator.block);
        right = right.filter(|block: &usize| *block != dominator.block);
        let is_there = left.is_none()
            && right.is_none()
            && dominator.keeps(&plan.left)
            && dominator.keeps(&plan.right);
        let credit = plans.credits.get(dominator.block).copied();
        if is_there && cost <= credit.unwrap_or(0) {
            return Some(dominator.block);
        }
    }
    None
}

/// One plan more, if there are few and the block pays for it; answers its register.
fn push_plan(plans: &mut Plans, plan: Computation) -> Result<Option<u32>, AllocError> {
    let made = plans.list.len().saturating_sub(plans.first);
    if made >= MOST || plan.register >= PLACES - 1 {
        return Ok(None);
    }
    let line = plan.line();
    let block = further(plans, &plan, line_cost(&line)).unwrap_or(plan.block);
    if !pay(plans.credits.as_mut_slice(), block, &line) {
        plans.is_short = true;
        return Ok(None);
    }
    if block != plan.block {
        plans.owed = plans.owed.saturating_sub(line_cost(&line));
    }
    plans.next = plan.register.saturating_add(1);
    plans.list.push(Computation { block, ..plan })?;
    Ok(Some(plan.register))
}

/// A sum of two registers in front of a line of its own block, into the next register, if the block pays for it.
pub(crate) fn plan_in_front(
    plans: &mut Plans,
    block: usize,
    left: u32,
    right: u32,
) -> Option<Computation> {
    let plan = Computation {
        block,
        register: plans.next,
        operation: Operation::Reg(RegOp::Add),
        left: Operand::At(left),
        right: Operand::At(right),
    };
    if plan.register >= PLACES - 1 || !pay(plans.credits.as_mut_slice(), block, &plan.line()) {
        return None;
    }
    plans.next = plan.register.saturating_add(1);
    Some(plan)
}

/// The computation of a line in front of a loop, if its operands have their values there, and the register that the line writes.
fn wanted(
    register: u32,
    written: &Written,
    before: usize,
    line: &Line<u32>,
) -> Option<(u32, Computation)> {
    match line {
        Line::Operate {
            to,
            operation,
            left,
            right,
        } => {
            let plan = Computation {
                block: before,
                register,
                operation: *operation,
                left: written.in_front(*left)?,
                right: written.in_front(*right)?,
            };
            if is_worth(&plan) {
                Some((*to, plan))
            } else {
                None
            }
        }
        _ => None,
    }
}

/// A computation for this loop that is planned, as it is or anew.
fn put_plan(plans: &mut Plans, wanted: Computation) -> Result<Option<u32>, AllocError> {
    let mut made = plans.list.iter().skip(plans.first);
    let same = made.find(|plan| {
        plan.operation == wanted.operation && plan.left == wanted.left && plan.right == wanted.right
    });
    match same.map(|plan| plan.register) {
        Some(register) => Ok(Some(register)),
        None => push_plan(plans, wanted),
    }
}

/// The sum in front of a loop of two summands of three, of which the third changes; the register that has the sum of the first two; and the third.
#[derive(Clone, Copy)]
struct Part {
    plan: Computation,
    sum: u32,
    rest: Operand<u32>,
}

/// Whether to add two summands in front of a loop saves an addition in it: the sum of words isn't read but by the one that is added otherwise.
fn saves(written: &Written, operation: Operation, sum: u32) -> bool {
    match operation {
        Operation::RegW(_) => written.reads(sum) == 1,
        _ => true,
    }
}

fn part_of_sum(
    register: u32,
    written: &Written,
    before: usize,
    operation: Operation,
    sum: u32,
    added: Operand<u32>,
) -> Option<Part> {
    let of = written.summands(sum)?;
    if of.operation != operation || !saves(written, operation, sum) {
        return None;
    }
    let (left, rest) = match written.in_front(of.left) {
        Some(left) => (left, of.right),
        None => (written.in_front(of.right)?, of.left),
    };
    let plan = Computation {
        block: before,
        register,
        operation,
        left,
        right: written.in_front(added)?,
    };
    if is_worth(&plan) {
        Some(Part { plan, sum, rest })
    } else {
        None
    }
}

/// The same by either of the two that are added; of longs both are registers.
fn wanted_part(register: u32, written: &Written, before: usize, of: &Sum) -> Option<Part> {
    match (of.operation, of.left, of.right) {
        (_, Operand::At(one), Operand::At(other)) => {
            match part_of_sum(register, written, before, of.operation, one, of.right) {
                Some(part) => Some(part),
                None => part_of_sum(register, written, before, of.operation, other, of.left),
            }
        }
        (Operation::RegW(_), Operand::At(one), _) => {
            part_of_sum(register, written, before, of.operation, one, of.right)
        }
        _ => None,
    }
}

/// Where a line stands, and in front of which loop.
#[derive(Clone, Copy)]
struct Place {
    before: usize,
    at: Spot,
}

/// The sum of what the loop doesn't change and a number, as a computation in front of it.
fn sum_in_front(
    register: u32,
    written: &Written,
    before: usize,
    sum: &Operand<u32>,
) -> Option<Computation> {
    let Operand::At(sum) = sum else {
        return None;
    };
    let of = written.summands(*sum)?;
    match (of.operation, of.right) {
        (Operation::Reg(RegOp::Add), Operand::Number(number)) => Some(Computation {
            block: before,
            register,
            operation: of.operation,
            left: written.in_front(of.left)?,
            right: Operand::Number(number),
        }),
        _ => None,
    }
}

/// An operand that has the same value in front of the loop, where a sum with a number is planned for that.
fn base_of(
    plans: &mut Plans,
    written: &Written,
    before: usize,
    base: &Operand<u32>,
) -> Result<Option<Operand<u32>>, AllocError> {
    if let Some(operand) = written.in_front(*base) {
        return Ok(Some(operand));
    }
    match sum_in_front(plans.next, written, before, base) {
        Some(plan) => match put_plan(plans, plan)? {
            Some(register) => Ok(Some(Operand::At(register))),
            None => Ok(None),
        },
        None => Ok(None),
    }
}

/// The sum of a product of a register that grows and of what the loop doesn't change.
fn linear_of(
    plans: &mut Plans,
    written: &Written,
    place: Place,
    to: u32,
    base: &Operand<u32>,
    factor: &Operand<u32>,
) -> Result<Option<Linear>, AllocError> {
    let Some(product) = written.product(*factor) else {
        return Ok(None);
    };
    match base_of(plans, written, place.before, base)? {
        Some(base) => Ok(Some(Linear {
            at: place.at,
            to,
            base,
            product,
            is_part: false,
        })),
        None => Ok(None),
    }
}

/// Notes the sum with a product of a register that grows, if it is one; the sum of the other two is planned.
fn push_part(
    plans: &mut Plans,
    written: &Written,
    place: Place,
    to: u32,
    part: &Part,
    register: u32,
) -> Result<(), AllocError> {
    if let Some(product) = written.product(part.rest) {
        for linear in plans.sums.iter_mut() {
            linear.is_part = linear.is_part || linear.to == part.sum;
        }
        plans.sums.push(Linear {
            at: place.at,
            to,
            base: Operand::At(register),
            product,
            is_part: false,
        })?;
    }
    Ok(())
}

/// Notes the sum with a product of a register that grows, if it is one.
fn push_linear(
    plans: &mut Plans,
    written: &Written,
    place: Place,
    to: u32,
    left: &Operand<u32>,
    right: &Operand<u32>,
) -> Result<(), AllocError> {
    let linear = match linear_of(plans, written, place, to, left, right)? {
        Some(linear) => Some(linear),
        None => linear_of(plans, written, place, to, right, left)?,
    };
    if let Some(linear) = linear {
        plans.sums.push(linear)?;
    }
    Ok(())
}

/// Plans the part of a sum that doesn't change, and notes a sum of longs if it has a product.
fn plan_part(
    plans: &mut Plans,
    written: &Written,
    place: Place,
    to: u32,
    of: &Sum,
) -> Result<(), AllocError> {
    let is_long = matches!(of.operation, Operation::Reg(_));
    if let Some(part) = wanted_part(plans.next, written, place.before, of) {
        if let Some(register) = put_plan(plans, part.plan)? {
            return if is_long {
                push_part(plans, written, place, to, &part, register)
            } else {
                Ok(())
            };
        }
    }
    if is_long {
        push_linear(plans, written, place, to, &of.left, &of.right)
    } else {
        Ok(())
    }
}

/// What a line adds, and the register that takes that.
fn sum_in(line: &Line<u32>) -> Option<(u32, Sum)> {
    match line {
        Line::Operate {
            to,
            operation: operation @ (Operation::Reg(RegOp::Add) | Operation::RegW(RegWOp::Addw)),
            left,
            right,
        } => {
            let sum = Sum {
                operation: *operation,
                left: *left,
                right: *right,
            };
            Some((*to, sum))
        }
        _ => None,
    }
}

/// Plans the part of a sum that doesn't change, and notes what the line adds or multiplies.
fn plan_sum(
    plans: &mut Plans,
    written: &mut Written,
    place: Place,
    line: &Line<u32>,
) -> Result<(), AllocError> {
    match sum_in(line) {
        Some((to, sum)) => {
            plan_part(plans, written, place, to, &sum)?;
            written.add(to, sum)
        }
        None => match product_of(written, line) {
            Some((to, product)) => written.multiply(to, product),
            None => Ok(()),
        },
    }
}

fn plan_line(
    plans: &mut Plans,
    written: &mut Written,
    place: Place,
    line: &Line<u32>,
) -> Result<(), AllocError> {
    match wanted(plans.next, written, place.before, line) {
        Some((to, plan)) => {
            if let Some(instead) = put_plan(plans, plan)? {
                written.stand(to, instead);
            }
            Ok(())
        }
        None => plan_sum(plans, written, place, line),
    }
}

/// Plans for the lines of a block of a loop.
///
/// # Errors
///
/// Only where memory was refused.
pub(crate) fn plan_block(
    plans: &mut Plans,
    written: &mut Written,
    before: usize,
    number: usize,
    block: &Block<u32>,
) -> Result<(), AllocError> {
    for (line, item) in block.lines.as_slice().iter().enumerate() {
        let at = Spot {
            block: number,
            line,
        };
        plan_line(plans, written, Place { before, at }, item)?;
    }
    Ok(())
}

/// The plans, block by block; with those for the lines of each block.
fn by_block(
    alloc: Global,
    plans: &mut Plans,
    registers: u32,
    blocks: &[Block<u32>],
) -> Result<Vec<BlockPlan>, AllocError> {
    let reads = count_reads(alloc, registers, blocks)?;
    let mut lists = Vec::with_capacity(alloc, blocks.len())?;
    for (number, block) in blocks.iter().enumerate() {
        lists.push(BlockPlan {
            in_front: plan_offsets(alloc, plans, reads.as_slice(), number, block)?,
            behind: Vec::new(alloc),
        })?;
    }
    Ok(lists)
}

/// No plans yet, and what the ticks of each block leave.
fn no_plans(alloc: Global, function: &VFunc) -> Result<Plans, AllocError> {
    Ok(Plans {
        list: Vec::new(alloc),
        first: 0,
        next: function.registers,
        credits: function
            .code
            .blocks
            .as_slice()
            .iter()
            .map(|block| credit(block))
            .collect(alloc)?,
        sums: Vec::new(alloc),
        dominators: Vec::new(alloc),
        owed: 0,
        is_short: false,
    })
}

/// What the plans choose for the blocks, and what is planned for their own lines; nothing where no plan is made.
fn choice_of(
    alloc: Global,
    plans: &mut Plans,
    function: &VFunc,
) -> Result<Option<Plan>, AllocError> {
    let mut blocks = by_block(
        alloc,
        plans,
        function.registers,
        function.code.blocks.as_slice(),
    )?;
    if plans.next == function.registers {
        return Ok(None);
    }
    for plan in plans.list.iter() {
        if let Some(block) = blocks.get_mut(plan.block) {
            block.behind.extend_from_slice(&[*plan])?;
        }
    }
    Ok(Some(Plan {
        blocks,
        registers: plans.next,
    }))
}

/// Computations for the ends of blocks in front of loops, and for extensions that are shifted to the left; none where there is nothing to do.
///
/// # Errors
///
/// Only where memory was refused.
pub fn choose_plan(alloc: Global, function: &VFunc) -> Result<Option<Plan>, AllocError> {
    if !may_plan(function.code.blocks.as_slice()) {
        return Ok(None);
    }
    let mut plans = no_plans(alloc, function)?;
    plan_nests(alloc, &mut plans, function)?;
    choice_of(alloc, &mut plans, function)
}
