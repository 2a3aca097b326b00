//! The turn that was the last.
use crate::call::target;
use crate::label::targets;
use crate::name;
use crate::place::{Does, Step, StepList};
use crate::trace::source::{Story, function_at};
use crate::trace::values::add_value;
use il_ast::{Block, Func, InText, Label, Target, Val, Value};
use il_interp::trace::Place;
use std::alloc::{AllocError, Global};

/// Adds a line for each temporary and each datum that the turn reads, once, with what it holds.
pub fn add_operands(alloc: Global, story: &mut Story<'_>, place: Place) -> Result<(), AllocError> {
    if let Some(function) = function_at(story.source, place.function)
        && let Some(block) = place.in_block(story.source.linked)
    {
        let steps = steps_of(alloc, function.item, block, place.next, targets(block))?;
        for (number, step) in steps.as_slice().iter().enumerate() {
            let mut before = steps.as_slice().iter().take(number);
            if let Some(operand) = value_read(step, block.label)
                && !before.any(|step| value_read(step, block.label) == Some(operand))
            {
                add_operand(story, function, operand);
            }
        }
    }
    Ok(())
}

/// What a turn of a block does: an instruction, or the jump with the phis of the blocks of these labels.
pub fn steps_of(
    alloc: Global,
    function: &Func,
    block: &Block,
    next: usize,
    behind: [Option<Label>; 2],
) -> Result<Vec<Step>, AllocError> {
    let mut steps = StepList::new(alloc);
    match block.insts.as_slice().get(next) {
        Some(inst) => steps.add_inst(inst),
        None => {
            if let Some(jump) = &block.jump {
                steps.add_jump(jump);
            }
            for label in behind.into_iter().flatten() {
                let blocks = function.blocks.as_slice().iter();
                let led_to = blocks.filter(|block| block.label == label);
                for phi in led_to.flat_map(|block| block.phis.as_slice()) {
                    steps.add_phi(phi);
                }
            }
        }
    }
    steps.finish()
}

/// The value that a step reads in the block of a label, or behind it.
pub fn value_read(step: &Step, label: Label) -> Option<Val> {
    match step.does {
        Does::Takes(from, _) if from != label => None,
        _ => step.read(),
    }
}

/// Adds a line that says what an operand holds, where it is a temporary or the address of a datum.
fn add_operand(story: &mut Story<'_>, function: &InText<&Func>, operand: Val) {
    let held = value_of(story, function.text, &operand);
    let is_told = match operand {
        Val::Int(_) => false,
        Val::Temp(_) => true,
        Val::Global(_) => matches!(held, Some(Value::Pointer { .. })),
    };
    if is_told {
        story.words.add("    ");
        name::add_operand(&mut story.words, story.source.linked, function, operand);
        story.words.add(" is ");
        add_value(story, held);
        story.words.add("\n");
    }
}

/// What an operand holds.
pub fn value_of(story: &Story<'_>, text: usize, operand: &Val) -> Option<Value> {
    match operand {
        Val::Int(number) => Some(Value::Integer(*number)),
        Val::Temp(temp) => story.running.value(temp.number()),
        Val::Global(symbol) => match target(story.source.linked, text, *symbol)? {
            Target::Object(number) => Some(Value::Pointer {
                block: number as u128,
                offset: 0,
            }),
            Target::Code(callee) => Some(Value::Function(callee)),
        },
    }
}
