//! The machine code of functions in location code.
//!
//! Instructions are written as a disassembly has them. A label is `@N:`, a branch or a jump to it has `@N` in the place of an offset, and an instruction with a part of an
//! address has ` + $N + OFFSET` behind it; `call $N` calls a name.
use crate::code_text::function::{located_function, located_text};
use abi_frames::frame::frame;
use asm_layout::call::CallForm;
use asm_layout::layout::layout;
use flat_code::function::flat;
use rv_isa::decode::decode;
use rv_isa::text::text;
use rv_isa::{BranchOffset, Instr, Item};
use std::alloc::{AllocError, Global};
use text_maker::{TextMaker, say};

/// An item: a branch with a label in the place of its offset, and a part of an address behind the instruction with an immediate of 0 to which it is added.
fn item_text(alloc: Global, item: Item) -> Result<String, AllocError> {
    match item {
        Item::Plain(instruction) => text(alloc, instruction),
        Item::Label(label) => format!(in alloc; "@{label}:"),
        Item::Branch {
            op,
            rs1,
            rs2,
            label,
        } => {
            let branch = Instr::Branch {
                op,
                rs1,
                rs2,
                offset: BranchOffset { value: 0 },
            };
            let by_offset = text(alloc, branch)?;
            let compared = by_offset.as_str().trim_end_matches('0');
            format!(in alloc; "{compared}@{label}")
        }
        Item::Goto(label) => format!(in alloc; "goto @{label}"),
        Item::Call(global) => format!(in alloc; "call ${global}"),
        Item::Relocated(relocated) => {
            let instruction = text(alloc, relocated.instruction.completed(0))?;
            let (global, offset) = (relocated.global, relocated.offset.value);
            format!(in alloc; "{instruction} + ${global} + {offset}")
        }
    }
}

fn code_of(alloc: Global, text: &str) -> Option<String> {
    let function = located_function(alloc, text)?;
    let code = frame(alloc, &flat(function)).ok()?;
    let mut to = TextMaker::new(alloc);
    for item in code.items() {
        say!(to; "{}\n", item_text(alloc, *item).ok()?);
    }
    to.finish().ok()
}

/// The words of a function: each with its offset from the first and its instruction.
pub fn words(alloc: Global, function: &str) -> Option<String> {
    let function = located_function(alloc, function)?;
    let labelled = frame(alloc, &flat(function)).ok()?;
    let code = layout(alloc, CallForm::Near, labelled).ok()?;
    let mut to = TextMaker::new(alloc);
    for (at, word) in code.words().iter().enumerate() {
        say!(to; "{:4} {word:08x} ", at.wrapping_mul(4));
        if let Some(instruction) = decode(*word) {
            say!(to; "{}", text(alloc, instruction).ok()?);
        }
        to.add("\n");
    }
    to.finish().ok()
}

/// How often a line stands there, and the line: `times N LINE` is a line that stands there N times.
fn counted(line: &str) -> (u64, &str) {
    let behind = line.strip_prefix("times ").unwrap_or("");
    let (count, repeated) = behind.split_once(' ').unwrap_or(("", ""));
    match count.parse::<u64>() {
        Ok(count) => (count, repeated),
        Err(_) => (1, line),
    }
}

/// A function that was taken over to be read on bytes.
pub fn flattened(alloc: Global, text: &str) -> Option<String> {
    let function = flat(located_function(alloc, text)?);
    located_text(alloc, &function.located).ok()
}

/// The code of a function. A line `times N LINE` stands for N such lines.
pub fn code(alloc: Global, text: &str) -> Option<String> {
    let mut function = TextMaker::new(alloc);
    for line in text.lines() {
        let (count, line) = counted(line);
        for _ in 0..count {
            say!(function; "{line}\n");
        }
    }
    code_of(alloc, function.finish().ok()?.as_str())
}

/// A function of two blocks. The second makes a call and writes all registers that callees keep, so that the frame begins with thirteen saved registers, and its slots
/// stand behind them at 104. There are 3 of these where nothing else is said.
fn keeping(alloc: Global, params: &str, slots: &str, lines: &str) -> Option<String> {
    let mut to = TextMaker::new(alloc);
    let slots = if slots.is_empty() { "slots 3" } else { slots };
    say!(to; "function w ({params}) {slots}\n@0\ntick 1000 turn\n{lines}\n");
    to.add("goto @1\n@1\ntick 1000 turn\ncall 0()\n");
    for register in [8, 9, 18, 19, 20, 21, 22, 23, 24, 25, 26, 27] {
        say!(to; "x{register} = 0\n");
    }
    to.add("halt");
    to.finish().ok()
}

/// What stands behind one text and before another.
fn between<'a>(code: &'a str, from: &str, to: &str) -> Option<&'a str> {
    let (_, behind) = code.split_once(from)?;
    let (part, _) = behind.split_once(to)?;
    Some(part)
}

/// The code of lines, in a function that keeps all registers that callees keep.
pub fn code_of_lines(alloc: Global, lines: &str, slots: &str) -> Option<String> {
    let function = keeping(alloc, "", slots, lines)?;
    let code = code_of(alloc, function.as_str())?;
    String::from_str(alloc, between(code.as_str(), "@0:\n", "@1:\n")?).ok()
}

/// The code that brings arguments to the places of parameters, in such a function.
pub fn code_of_entry(alloc: Global, params: &str, slots: &str) -> Option<String> {
    let function = keeping(alloc, params, slots, "tick 0")?;
    let code = code_of(alloc, function.as_str())?;
    let entry = between(code.as_str(), "sd x27, 96(x2)\n", "@0:\n")?;
    String::from_str(alloc, entry).ok()
}
