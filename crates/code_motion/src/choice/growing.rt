//! Registers that a loop adds a number to, and sums with products of them, which are added to in their place.
use crate::choice::choose::{Plans, pay};
use crate::choice::written::{Growth, Product, Spot, Written};
use crate::plan::Computation;
use flow::loops::Loop;
use rv_isa::{RegOp, RegWOp};
use std::alloc::AllocError;
use vcode::cost::is_immediate;
use vcode::limits::PLACES;
use vcode::{Block, Line, Operand, Operation};

/// A sum of what a loop doesn't change and of a product of a register that grows.
#[derive(Clone, Copy)]
pub(crate) struct Linear {
    pub(crate) at: Spot,
    pub(crate) to: u32,
    pub(crate) base: Operand<u32>,
    pub(crate) product: Product,

    /// whether it only stands in another sum, which is planned in its place
    pub(crate) is_part: bool,
}

/// How many sums are added to in a loop, at most.
const MOST: usize = 4;

// ---- registers that grow

/// A register that takes the sum of a register and a number, or takes back such a sum of its own.
fn growth_of(written: &Written, line: &Line<u32>, at: Spot) -> Option<(u32, Growth)> {
    match line {
        Line::Operate {
            to,
            operation: Operation::Reg(RegOp::Add) | Operation::RegW(RegWOp::Addw),
            left: Operand::At(from),
            right: Operand::Number(by),
        } => Some((
            *to,
            Growth {
                from: *from,
                by: *by,
                at,
            },
        )),
        Line::Set {
            to,
            value: Operand::At(from),
        } => match written.growth(*from) {
            Some(growth) if growth.from == *to => Some((*to, Growth { at, ..growth })),
            _ => None,
        },
        _ => None,
    }
}

/// Notes the registers that the loop adds a number to. A word of which it isn't known that it grows as a long does leads to sums that nothing becomes a copy of.
///
/// # Errors
///
/// Only where memory was refused.
pub(crate) fn find_growth(
    written: &mut Written,
    blocks: &[Block<u32>],
    nest: &Loop,
) -> Result<(), AllocError> {
    for number in nest.blocks.iter() {
        if let Some(block) = blocks.get(*number) {
            for (line, item) in block.lines.as_slice().iter().enumerate() {
                let at = Spot {
                    block: *number,
                    line,
                };
                if let Some((to, growth)) = growth_of(written, item, at) {
                    written.grow(to, growth)?;
                }
            }
        }
    }
    Ok(())
}

// ---- products

/// What an operation with this number multiplies by.
fn factor_of(operation: Operation, number: u64) -> Option<u64> {
    match operation {
        Operation::Reg(RegOp::Sll) if number < 12 => Some(1u64 << number),
        Operation::Reg(RegOp::Mul) => Some(number),
        _ => None,
    }
}

/// The product of a register that grows, and a number, which a line computes.
pub(crate) fn product_of(written: &Written, line: &Line<u32>) -> Option<(u32, Product)> {
    match line {
        Line::Operate {
            to,
            operation,
            left: Operand::At(index),
            right: Operand::Number(number),
        } => {
            let factor = factor_of(*operation, *number)?;
            written.own_growth(*index)?;
            Some((
                *to,
                Product {
                    index: *index,
                    operation: *operation,
                    number: *number,
                    factor,
                },
            ))
        }
        _ => None,
    }
}

// ---- what is added to in their place

/// Whether each round comes to the sum, before the register grows.
fn is_steady(written: &Written, nest: &Loop, linear: &Linear) -> bool {
    let Some(Growth { at: grown, .. }) = written.own_growth(linear.product.index) else {
        return false;
    };
    let at = linear.at;
    let is_before = at.block < grown.block || (at.block == grown.block && at.line < grown.line);
    nest.always.contains(&at.block) && is_before
}

fn is_same(one: &Linear, other: &Linear) -> bool {
    one.base == other.base
        && one.product.index == other.product.index
        && one.product.factor == other.product.factor
}

/// The plans for a sum: the product and the sum in front of the loop, and what is added to that where the register grows.
fn steps_of(
    next: u32,
    before: usize,
    linear: &Linear,
    growth: &Growth,
) -> (Computation, Computation, Computation) {
    let register = next.saturating_add(1);
    let product = Computation {
        block: before,
        register: next,
        operation: linear.product.operation,
        left: Operand::At(linear.product.index),
        right: Operand::Number(linear.product.number),
    };
    let sum = Computation {
        block: before,
        register,
        operation: Operation::Reg(RegOp::Add),
        left: linear.base,
        right: Operand::At(next),
    };
    let step = Computation {
        block: growth.at.block,
        register,
        operation: Operation::Reg(RegOp::Add),
        left: Operand::At(register),
        right: Operand::Number(growth.by.wrapping_mul(linear.product.factor)),
    };
    (product, sum, step)
}

fn pays(plans: &mut Plans, plan: &Computation) -> bool {
    pay(plans.credits.as_mut_slice(), plan.block, &plan.line())
}

/// Plans what is added to in the place of a sum, if its blocks pay for that; says whether they do.
fn plan_step(
    plans: &mut Plans,
    written: &Written,
    before: usize,
    linear: &Linear,
) -> Result<bool, AllocError> {
    let growth = match written.own_growth(linear.product.index) {
        Some(growth) => growth,
        None => return Ok(false),
    };
    let (product, sum, step) = steps_of(plans.next, before, linear, &growth);
    let by = growth.by.wrapping_mul(linear.product.factor);
    if sum.register >= PLACES - 1 || !is_immediate(by) {
        return Ok(false);
    }
    if !(pays(plans, &step) && pays(plans, &product) && pays(plans, &sum)) {
        return Ok(false);
    }
    plans.next = sum.register.saturating_add(1);
    plans.list.extend_from_slice(&[product, sum, step])?;
    Ok(true)
}

/// Whether a sum is worth a register that is added to: where it isn't planned already.
fn is_wanted(
    sums: &[Linear],
    written: &Written,
    nest: &Loop,
    number: usize,
    linear: &Linear,
) -> bool {
    let mut first = sums.iter().take(number);
    !linear.is_part
        && !first.any(|one| !one.is_part && is_same(one, linear))
        && is_steady(written, nest, linear)
}

/// Plans what is added to in the place of sums with products.
///
/// # Errors
///
/// Only where memory was refused.
pub(crate) fn plan_steps(
    plans: &mut Plans,
    written: &Written,
    nest: &Loop,
) -> Result<(), AllocError> {
    let mut made = 0usize;
    for number in 0..plans.sums.len() {
        let sums = plans.sums.as_slice();
        let Some(linear) = sums.get(number).copied() else {
            return Ok(());
        };
        if made < MOST
            && is_wanted(sums, written, nest, number, &linear)
            && plan_step(plans, written, nest.before, &linear)?
        {
            made = made.saturating_add(1);
        }
    }
    Ok(())
}
