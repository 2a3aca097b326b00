//! Code as text.
use crate::code_text::names::{Named, class_name, store_name};
use crate::code_text::place::{Place, Word};
use rv_isa::text::load_name;
use std::alloc::{AllocError, Global};
use text_maker::{TextMaker, say};
use vcode::{Argument, Code, Extension, Jump, Line, Operand, Operation};

fn operand<P: Place>(value: &Operand<P>) -> Word {
    match value {
        Operand::At(place) => place.word(),
        Operand::Number(number) => Word::Number(*number),
        Operand::Name(global) => Word::Name(global.number()),
    }
}

/// What stands before a value of this extension.
fn claim(extension: Extension) -> &'static str {
    match extension {
        Extension::Made => "",
        Extension::Claimed => "claimed ",
    }
}

/// What stands before the item with this number of a list.
fn comma(number: usize) -> &'static str {
    if number == 0 { "" } else { ", " }
}

fn call<P: Place>(to: &mut TextMaker, callee: &Operand<P>, args: &[Argument<P>]) {
    say!(to; "call {}(", operand(callee));
    for (number, arg) in args.iter().enumerate() {
        let value = operand(&arg.value);
        let (comma, class) = (comma(number), class_name(arg.class));
        say!(to; "{comma}{class} {}{value}", claim(arg.extension));
    }
    to.add(")");
}

fn line<P: Place>(to: &mut TextMaker, line: &Line<P>) {
    match line {
        Line::Tick { turn, weight } => {
            say!(to; "tick {weight}{}", if *turn { " turn" } else { "" });
        }
        Line::Set { to: place, value } => say!(to; "{} = {}", place.word(), operand(value)),
        Line::Operate {
            to: place,
            operation,
            left,
            right,
        } => {
            let (left, right) = (operand(left), operand(right));
            say!(to; "{} = {} {left}, {right}", place.word(), Named(*operation));
        }
        Line::Load { to: place, op, at } => {
            let (offset, base) = (at.offset.value, operand(&at.base));
            say!(to; "{} = {} {offset}({base})", place.word(), load_name(*op));
        }
        Line::Store { size, value, at } => {
            let (offset, base) = (at.offset.value, operand(&at.base));
            say!(to; "{} {}, {offset}({base})", store_name(*size), operand(value));
        }
        Line::Alloc { to: None, size } => say!(to; "alloc {size}"),
        Line::Alloc {
            to: Some(place),
            size,
        } => say!(to; "{} = alloc {size}", place.word()),
        Line::Blit {
            from,
            to: target,
            count,
        } => say!(to; "blit {}, {}, {count}", operand(from), operand(target)),
        Line::Call {
            to: wanted,
            callee,
            args,
        } => {
            if let Some(wanted) = wanted {
                say!(to; "{} ={} ", wanted.place.word(), class_name(wanted.class));
            }
            call(to, callee, args.as_slice());
        }
    }
    to.add("\n");
}

fn jump<P: Place>(to: &mut TextMaker, jump: &Jump<P>) {
    match jump {
        Jump::Goto(block) => say!(to; "goto @{block}\n"),
        Jump::Branch { on, met, otherwise } => {
            let comparison = Named(Operation::Compare(on.condition, on.class));
            let (left, right) = (operand(&on.left), operand(&on.right));
            say!(to; "branch {comparison} {left}, {right}, @{met}, @{otherwise}\n");
        }
        Jump::Return(None) => to.add("ret\n"),
        Jump::Return(Some(returned)) => {
            say!(to; "ret {}{}\n", claim(returned.extension), operand(&returned.value));
        }
        Jump::Halt => to.add("halt\n"),
    }
}

fn header<P: Place>(to: &mut TextMaker, count: u32, code: &Code<P>) {
    to.add("function ");
    if let Some(class) = code.result {
        say!(to; "{} ", class_name(class));
    }
    to.add("(");
    for (number, param) in code.params.as_slice().iter().enumerate() {
        say!(to; "{}{} {}", comma(number), class_name(param.class), param.place.word());
    }
    say!(to; ") {} {count}\n", P::COUNTED);
}

/// The text of a code with so many registers or slots.
pub(crate) fn written<P: Place>(
    alloc: Global,
    count: u32,
    code: &Code<P>,
) -> Result<String, AllocError> {
    let mut to = TextMaker::new(alloc);
    header(&mut to, count, code);
    for (number, block) in code.blocks.as_slice().iter().enumerate() {
        say!(to; "@{number}\n");
        for from in block.lines.as_slice() {
            line(&mut to, from);
        }
        jump(&mut to, &block.jump);
    }
    to.finish()
}
