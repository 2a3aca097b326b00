//! Code from text.
use crate::code_text::names::{class_of, comparison_of, load_op, operation_of, store_size};
use crate::code_text::place::Place;
use crate::code_text::words::{Words, number_behind, signed};
use il_ast::{Seq, Symbol};
use std::alloc::Global;
use std::mem;
use vcode::{
    Address, Argument, Block, Code, Comparison, Destination, Extension, Jump, Line, Operand,
    ReturnValue,
};

fn operand<P: Place>(word: &str) -> Option<Operand<P>> {
    if let Some(place) = P::read(word) {
        return Some(Operand::At(place));
    }
    if let Some(global) = number_behind("$", word) {
        return Some(Operand::Name(Symbol::at(global as usize)));
    }
    Some(Operand::Number(signed(word)?))
}

fn address<P: Place>(word: &str) -> Option<Address<P>> {
    let (offset, base) = word.strip_suffix(')')?.split_once('(')?;
    Some(Address::beyond(operand(base)?, signed(offset)?))
}

fn block_number(word: &str) -> Option<usize> {
    Some(number_behind("@", word)? as usize)
}

/// A value, and whether it is claimed to stand extended.
fn extended<P: Place>(words: &mut Words<'_>) -> Option<(Extension, Operand<P>)> {
    let first = words.next();
    if first == "claimed" {
        return Some((Extension::Claimed, operand(words.next())?));
    }
    Some((Extension::Made, operand(first)?))
}

fn argument<P: Place>(text: &str) -> Option<Argument<P>> {
    let mut words = Words::of(text);
    let class = class_of(words.next())?;
    let (extension, value) = extended(&mut words)?;
    Some(Argument {
        class,
        value,
        extension,
    })
}

fn arguments<P: Place>(alloc: Global, list: &str) -> Option<Seq<Argument<P>>> {
    let mut args = Seq::new(alloc);
    if !list.is_empty() {
        for part in list.split(',') {
            args.push(argument(part)?).ok()?;
        }
    }
    Some(args)
}

/// A call, from what stands behind the word for it.
fn call<P: Place>(alloc: Global, to: Option<Destination<P>>, text: &str) -> Option<Line<P>> {
    let (callee, list) = text.strip_suffix(')')?.split_once('(')?;
    Some(Line::Call {
        to,
        callee: operand(callee)?,
        args: arguments(alloc, list)?,
    })
}

/// What a line without a result has behind its first word.
fn effect<P: Place>(first: &str, mut words: Words<'_>) -> Option<Line<P>> {
    match first {
        "tick" => Some(Line::Tick {
            weight: words.next().parse::<u32>().ok()?,
            turn: words.next() == "turn",
        }),
        "alloc" => Some(Line::Alloc {
            to: None,
            size: signed(words.next())?,
        }),
        "blit" => Some(Line::Blit {
            from: operand(words.next())?,
            to: operand(words.next())?,
            count: signed(words.next())?,
        }),
        _ => Some(Line::Store {
            size: store_size(first)?,
            value: operand(words.next())?,
            at: address(words.next())?,
        }),
    }
}

/// What a place takes, from what stands behind the sign for that.
fn assignment<P: Place>(to: P, mut words: Words<'_>) -> Option<Line<P>> {
    let first = words.next();
    if first == "alloc" {
        return Some(Line::Alloc {
            to: Some(to),
            size: signed(words.next())?,
        });
    }
    if let Some(op) = load_op(first) {
        return Some(Line::Load {
            to,
            op,
            at: address(words.next())?,
        });
    }
    if let Some(operation) = operation_of(first) {
        return Some(Line::Operate {
            to,
            operation,
            left: operand(words.next())?,
            right: operand(words.next())?,
        });
    }
    Some(Line::Set {
        to,
        value: operand(first)?,
    })
}

/// The place and the class of a call's result.
fn wanted<P: Place>(text: &str) -> Option<Destination<P>> {
    let (place, class) = text.trim_end().split_once(" =")?;
    Some(Destination {
        place: P::read(place)?,
        class: class_of(class)?,
    })
}

fn line<P: Place>(alloc: Global, text: &str) -> Option<Line<P>> {
    if let Some((before, behind)) = text.split_once("call ") {
        return call(alloc, wanted(before), behind);
    }
    let mut words = Words::of(text);
    let first = words.next();
    match P::read(first) {
        Some(to) => {
            let _sign = words.next();
            assignment(to, words)
        }
        None => effect(first, words),
    }
}

fn returned<P: Place>(mut words: Words<'_>) -> Option<ReturnValue<P>> {
    let (extension, value) = extended(&mut words)?;
    Some(ReturnValue { value, extension })
}

fn jump<P: Place>(text: &str) -> Option<Jump<P>> {
    let mut words = Words::of(text);
    match words.next() {
        "goto" => Some(Jump::Goto(block_number(words.next())?)),
        "branch" => {
            let (condition, class) = comparison_of(words.next())?;
            let on = Comparison {
                condition,
                class,
                left: operand(words.next())?,
                right: operand(words.next())?,
            };
            Some(Jump::Branch {
                on,
                met: block_number(words.next())?,
                otherwise: block_number(words.next())?,
            })
        }
        "ret" => Some(Jump::Return(returned(words))),
        "halt" => Some(Jump::Halt),
        _ => None,
    }
}

/// The blocks of a text, each of which ends with its jump.
fn blocks<P: Place>(alloc: Global, text: &str) -> Option<Seq<Block<P>>> {
    let mut blocks = Seq::new(alloc);
    let mut lines = Seq::new(alloc);
    for part in text.lines().map(|part| part.trim()) {
        if part.starts_with('@') {
            continue;
        }
        match jump(part) {
            Some(jump) => {
                let lines = mem::replace(&mut lines, Seq::new(alloc));
                blocks.push(Block { lines, jump }).ok()?;
            }
            None => lines.push(line(alloc, part)?).ok()?,
        }
    }
    Some(blocks)
}

fn parameter<P: Place>(text: &str) -> Option<Destination<P>> {
    let mut words = Words::of(text);
    Some(Destination {
        class: class_of(words.next())?,
        place: P::read(words.next())?,
    })
}

fn parameters<P: Place>(alloc: Global, list: &str) -> Option<Seq<Destination<P>>> {
    let mut params = Seq::new(alloc);
    if !list.is_empty() {
        for part in list.split(',') {
            params.push(parameter(part)?).ok()?;
        }
    }
    Some(params)
}

/// The code of a text, and how many registers or slots it has.
pub(crate) fn read<P: Place>(alloc: Global, text: &str) -> Option<(u32, Code<P>)> {
    let (first, rest) = text.split_once('\n').unwrap_or((text, ""));
    let (before, behind) = first.split_once('(')?;
    let (params, counted) = behind.split_once(')')?;
    let mut words = Words::of(before);
    let _function = words.next();
    let result = class_of(words.next());
    let mut words = Words::of(counted);
    let _name = words.next();
    let count = words.next().parse::<u32>().ok()?;
    let code = Code {
        result,
        params: parameters(alloc, params)?,
        blocks: blocks(alloc, rest)?,
    };
    Some((count, code))
}
