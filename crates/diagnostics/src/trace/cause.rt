//! Why a turn has no meaning.
use crate::call::{Call, add_difference};
use crate::label::targets;
use crate::name::add_operand;
use crate::trace::access::{add_blank, add_no_access};
use crate::trace::operation::why_none;
use crate::trace::source::{Story, function_at};
use crate::trace::turn::{steps_of, value_of, value_read};
use crate::trace::values::callee_name;
use il_ast::{Block, Class, Extension, Func, InText, Inst, Jump, Label, Size, UnaryOp, Value};
use il_interp::trace::Place;
use std::alloc::{AllocError, Global};
use text_maker::say;

/// What is said where no more is known.
const NO_MEANING: &str = "this has no meaning";

/// Adds a line that says why a turn has no meaning: which is the first operand that has no value, or none for its place, or else the reason.
pub fn add_cause(alloc: Global, story: &mut Story<'_>, place: Place) -> Result<(), AllocError> {
    if let Some(function) = function_at(story.source, place.function)
        && let Some(block) = place.in_block(story.source.linked)
    {
        let target = [taken_target(story, function.text, block), None];
        let steps = steps_of(alloc, function.item, block, place.next, target)?;
        story.words.add("    ");
        for step in steps.as_slice() {
            if let Some(operand) = value_read(step, block.label)
                && let Some(reason) = unfit(value_of(story, function.text, &operand), step.class)
            {
                add_operand(&mut story.words, story.source.linked, function, operand);
                story.words.add(reason);
                story.words.add("\n");
                return Ok(());
            }
        }
        add_reason(story, function, place, block);
        story.words.add("\n");
    }
    Ok(())
}

/// The label that a block's jump leads to.
fn taken_target(story: &Story<'_>, text: usize, block: &Block) -> Option<Label> {
    let targets = targets(block);
    if let Some(jump) = &block.jump
        && let Jump::Branch { on, .. } = jump.item
        && let Some(Value::Integer(number)) = value_of(story, text, &on)
        && number % 0x1_0000_0000 == 0
    {
        return targets[1];
    }
    targets[0]
}

/// Why a value can't be read in a place of a class.
fn unfit(value: Option<Value>, class: Class) -> Option<&'static str> {
    match (value, class) {
        (None, _) => Some(" is read before it is assigned"),
        (Some(Value::Pointer { .. }), Class::W) => Some(" is a pointer, and stands in a w place"),
        (Some(Value::Function(_)), Class::W) => Some(" is a function, and stands in a w place"),
        _ => None,
    }
}

/// Says why a turn has no meaning whose operands have values that fit their places.
fn add_reason(story: &mut Story<'_>, function: &InText<&Func>, place: Place, block: &Block) {
    let text = function.text;
    match place.instruction(story.source.linked) {
        Some(Inst::Unary { op, value, .. }) => match bytes_loaded(*op) {
            Some(count) => add_no_read(story, value_of(story, text, value), count),
            None => story.words.add("only a number can be negated"),
        },
        Some(
            Inst::Binary {
                op,
                left,
                right,
                ..
            },
        ) => match (value_of(story, text, left), value_of(story, text, right)) {
            (Some(left), Some(right)) => {
                let reason = why_none(story, *op, left, right);
                story.words.add(reason)
            }
            _ => story.words.add(NO_MEANING),
        },
        Some(Inst::Store { size, at, .. }) => {
            let _ = add_no_access(story, value_of(story, text, at), bytes_stored(*size));
        }
        Some(Inst::Blit { from, to, count }) => {
            let from = value_of(story, text, from);
            let to = value_of(story, text, to);
            if !add_no_access(story, from, *count) && !add_no_access(story, to, *count) {
                story
                    .words
                    .add("the two spans overlap, and are not the same");
            }
        }
        Some(Inst::Call { to, callee, args }) => {
            let args = args.as_slice();
            let call = Call { to: *to, args };
            add_of_call(story, text, value_of(story, text, callee), &call)
        }
        Some(Inst::Alloc { .. }) => story.words.add(NO_MEANING),
        None => add_of_jump(story, function, block),
    }
}

/// Why so many bytes at an address can't be read.
fn add_no_read(story: &mut Story<'_>, at: Option<Value>, count: u64) {
    if !add_no_access(story, at, count) && !add_blank(story, at, count) {
        story.words.add(NO_MEANING);
    }
}

/// How many bytes an operation loads, where it is a load.
fn bytes_loaded(op: UnaryOp) -> Option<u64> {
    match op {
        UnaryOp::LoadLong => Some(8),
        UnaryOp::Load(Extension::SignedWord | Extension::UnsignedWord) => Some(4),
        UnaryOp::Load(Extension::SignedHalf | Extension::UnsignedHalf) => Some(2),
        UnaryOp::Load(Extension::SignedByte | Extension::UnsignedByte) => Some(1),
        UnaryOp::Neg | UnaryOp::Copy | UnaryOp::Extend(_) => None,
    }
}

fn bytes_stored(size: Size) -> u64 {
    match size {
        Size::Byte => 1,
        Size::Half => 2,
        Size::Word => 4,
        Size::Long => 8,
    }
}

/// Why a call has no meaning: what is called is no function, or has other classes, or puts out what isn't there.
fn add_of_call(story: &mut Story<'_>, text: usize, callee: Option<Value>, call: &Call<'_>) {
    let words = &mut story.words;
    match callee {
        Some(Value::Function(callee)) => {
            say!(words; "{}", callee_name(story.source, callee));
            if !add_difference(words, story.source.linked, call, callee) {
                words.add(": ");
                add_of_write(story, text, call);
            }
        }
        Some(Value::Integer(_)) => words.add("what is called is a number, and no function"),
        _ => words.add("what is called is a pointer to data, and no function"),
    }
}

/// Why a call of `write` has no meaning.
fn add_of_write(story: &mut Story<'_>, text: usize, call: &Call<'_>) {
    let [_, at, count] = call.args else {
        story.words.add(NO_MEANING);
        return;
    };
    match value_of(story, text, &count.value) {
        Some(Value::Integer(count)) => add_no_read(story, value_of(story, text, &at.value), count),
        _ => story.words.add("the count of bytes is no number"),
    }
}

/// Why a jump has no meaning whose condition and phis have values.
fn add_of_jump(story: &mut Story<'_>, function: &InText<&Func>, block: &Block) {
    let Some(jump) = &block.jump else {
        return story.words.add(NO_MEANING);
    };
    let reason = match jump.item {
        Jump::Return(None) => "no value is returned, and the call wants one",
        Jump::Return(Some(operand)) => {
            add_operand(&mut story.words, story.source.linked, function, operand);
            let value = value_of(story, function.text, &operand);
            let class = function.item.result.unwrap_or(Class::L);
            unfit(value, class).unwrap_or(" can't be returned")
        }
        Jump::Goto(_) | Jump::Branch { .. } | Jump::Halt => NO_MEANING,
    };
    story.words.add(reason);
}
