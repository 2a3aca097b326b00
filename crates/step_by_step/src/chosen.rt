//! What passes choose to do with a function, in lines of their own.
use crate::code_text::function::virtual_function;
use crate::lists::add_numbers;
use block_layout::placement::choice::chains::chained;
use block_layout::tails::choice::{Worth, chosen_tails};
use code_motion::choice::choose::choose_plan;
use constant_placement::hoisting::choice::choose::choose_plans;
use constant_placement::sinking::choice::choose;
use qbec::Pass;
use std::alloc::Global;
use text_maker::{TextMaker, say};
use vcode::VFunc;

/// Registers that are computed at the ends of blocks, and in front of lines.
fn add_computations(text: &mut TextMaker, alloc: Global, function: &VFunc) -> Option<()> {
    let plan = choose_plan(alloc, function).ok()??;
    for (number, block) in plan.blocks.as_slice().iter().enumerate() {
        for computation in &block.behind {
            let register = computation.register;
            say!(text; "// computed: %{register} at the end of @{number}\n");
        }
    }
    Some(())
}

fn add_sets(text: &mut TextMaker, alloc: Global, function: &VFunc) -> Option<()> {
    let plans = choose(alloc, function).ok()??;
    for (number, plan) in plans.as_slice().iter().enumerate() {
        for known in plan.sets.as_slice() {
            say!(text; "// set: %{} in @{number}\n", known.register);
        }
    }
    Some(())
}

/// The blocks that set registers to constants.
fn add_constants(text: &mut TextMaker, alloc: Global, function: &VFunc) -> Option<()> {
    for plan in &choose_plans(alloc, function).ok()? {
        let register = plan.register;
        let sets = plan.sets.as_slice().iter().enumerate();
        for (number, _) in sets.filter(|(_, sets)| **sets) {
            say!(text; "// held: a constant in %{register} from @{number} on\n");
        }
    }
    Some(())
}

/// The blocks that get a copy of the one that they go to.
fn add_copies(text: &mut TextMaker, alloc: Global, function: &VFunc, worth: Worth) -> Option<()> {
    let blocks = function.code.blocks.as_slice();
    let chosen = chosen_tails(alloc, blocks, &[], worth).ok()??;
    for (number, is_chosen) in chosen.as_slice().iter().enumerate() {
        if *is_chosen {
            say!(text; "// copied: what @{number} goes to\n");
        }
    }
    Some(())
}

fn add_order(text: &mut TextMaker, alloc: Global, function: &VFunc) -> Option<()> {
    let order = chained(alloc, function.code.blocks.as_slice()).ok()?;
    text.add("// order:");
    add_numbers(text, order.as_slice());
    text.add("\n");
    Some(())
}

/// What a pass chooses to do with the function of a text, a line for each thing; nothing where it has no plan.
pub fn chosen(alloc: Global, pass: Pass, source: &str) -> Option<String> {
    let function = virtual_function(alloc, source)?;
    let mut text = TextMaker::new(alloc);
    let added = match pass {
        Pass::CodeMotion => add_computations(&mut text, alloc, &function),
        Pass::ConstantSinking => add_sets(&mut text, alloc, &function),
        Pass::ConstantHoisting => add_constants(&mut text, alloc, &function),
        Pass::JumpThreading => add_copies(&mut text, alloc, &function, Worth::Bare),
        Pass::TailDuplication => add_copies(&mut text, alloc, &function, Worth::Short),
        Pass::BlockPlacement => add_order(&mut text, alloc, &function),
        _ => None,
    };
    match added {
        Some(()) => text.finish().ok(),
        None => Some(String::new(alloc)),
    }
}
