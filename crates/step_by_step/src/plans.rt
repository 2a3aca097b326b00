//! Passes by given plans, right and wrong ones, in the place of those that are chosen.
use crate::code_text::function::virtual_function;
use crate::lists::numbers;
use crate::passes::{shown, shown_or_refused};
use code_motion::plan::{BlockPlan, Computation};
use constant_placement::hoisting::hold::with_constant;
use constant_placement::hoisting::plan::{Constant, Plan};
use constant_placement::sinking::known::Known;
use il_ast::Seq;
use std::alloc::Global;
use vcode::{Block, Line};

/// For each word whether it is `yes`.
fn marks(alloc: Global, words: &str) -> Option<Vec<bool>> {
    words
        .split_whitespace()
        .map(|word| word == "yes")
        .collect(alloc)
        .ok()
}

/// The function with a constant in a register, by a plan: the register, the number, and for each block whether it sets and whether it holds the register.
pub fn with_held_constant(alloc: Global, text: &str, plan_text: &str) -> Option<String> {
    let (register, rest) = plan_text
        .strip_prefix("register ")?
        .split_once("\nnumber ")?;
    let (number, rest) = rest.split_once("\nsets ")?;
    let (sets, holds) = rest.split_once("\nholds ")?;
    let plan = Plan {
        register: register.parse::<u32>().ok()?,
        constant: Constant::Number(number.parse::<u64>().ok()?),
        sets: marks(alloc, sets)?,
        holds: marks(alloc, holds)?,
    };
    let function = virtual_function(alloc, text)?;
    shown_or_refused(alloc, with_constant(alloc, &function, &plan))
}

/// The operations of a block's lines, as what is computed at the end of the block with this number.
fn block_plan(alloc: Global, number: usize, block: &Block<u32>) -> Option<BlockPlan> {
    let mut behind = Vec::new(alloc);
    for line in block.lines.as_slice() {
        if let Line::Operate {
            to,
            operation,
            left,
            right,
        } = line
        {
            let computation = Computation {
                block: number,
                register: *to,
                operation: *operation,
                left: *left,
                right: *right,
            };
            behind.push(computation).ok()?;
        }
    }
    Some(BlockPlan {
        in_front: Vec::new(alloc),
        behind,
    })
}

/// The function with computations at the ends of its blocks, by a plan: a function whose operations are done at the ends of the blocks of the same numbers, and which has as
/// many registers as there are then to be.
pub fn with_computations(alloc: Global, text: &str, plan_text: &str) -> Option<String> {
    let planned = virtual_function(alloc, plan_text)?;
    let mut blocks = Vec::new(alloc);
    for (number, block) in planned.code.blocks.as_slice().iter().enumerate() {
        blocks.push(block_plan(alloc, number, block)?).ok()?;
    }
    let plan = code_motion::plan::Plan {
        blocks,
        registers: planned.registers,
    };
    let function = virtual_function(alloc, text)?;
    shown(alloc, code_motion::hoist::apply(alloc, &function, &plan))
}

/// The function in which each block that has a `yes`, and goes to another, has a copy of that in the place of its jump.
pub fn with_tails(alloc: Global, text: &str, plan_text: &str) -> Option<String> {
    let chosen = marks(alloc, plan_text)?;
    let function = virtual_function(alloc, text)?;
    shown_or_refused(
        alloc,
        block_layout::tails::copy::apply(alloc, &function, chosen.as_slice()),
    )
}

/// What a plan's text has for a block: behind how many of its lines, and the registers with their numbers. Each line of the text has a block, how many lines, a register
/// and a number.
fn sets_of(
    alloc: Global,
    block: usize,
    plan_text: &str,
) -> Option<constant_placement::sinking::known::Plan> {
    let mut plan = constant_placement::sinking::known::Plan {
        behind: 0,
        sets: Seq::new(alloc),
    };
    for line in plan_text.lines() {
        if let [of, behind, register, number] = numbers(alloc, line)?.as_slice() {
            if *of == block {
                plan.behind = *behind;
                plan.sets
                    .push(Known {
                        register: u32::try_from(*register).ok()?,
                        number: *number as u64,
                    })
                    .ok()?;
            }
        }
    }
    Some(plan)
}

/// The function with registers set in its blocks, by a plan.
pub fn with_sets(alloc: Global, text: &str, plan_text: &str) -> Option<String> {
    let function = virtual_function(alloc, text)?;
    let mut plans = Vec::new(alloc);
    for block in 0..function.code.blocks.len() {
        plans.push(sets_of(alloc, block, plan_text)?).ok()?;
    }
    shown_or_refused(
        alloc,
        constant_placement::sinking::sink::apply(alloc, &function, plans.as_slice()),
    )
}
