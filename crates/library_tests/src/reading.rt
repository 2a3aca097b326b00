//! Texts that are cut off, texts with a byte too many, and a long text.

use crate::same::is_number;
use il_ast::{Definition, Text};
use il_reader::error::ReadError;
use il_reader::read::read;
use std::alloc::{AllocError, Global};
use std::process::Abort;
use text_maker::{TextMaker, say};

/// The line of the syntax error, or 0 where there is none.
fn error_line(alloc: Global, text: &[u8], rt: &impl Abort) -> usize {
    match read(alloc, text) {
        Ok(_) => 0,
        Err(ReadError::Syntax { line }) => line,
        Err(ReadError::Memory) => {
            assert!(rt; false, "memory");
            0
        }
    }
}

const LOOP_SUM: &[u8] = b"export function w $main() {\n@s\n@l\n%i =w phi @s 1, @l %j\n\
    %t =w phi @s 0, @l %u\n%u =w add %t, %i\n%j =w add %i, 1\n%c =w csltw %i, 100\n\
    jnz %c, @l, @e\n@e\nret %u\n}\n";

#[test]
fn each_front_of_a_text(rt: HostRuntime) {
    let mut lines: usize = 1;
    for at in 0..LOOP_SUM.len() {
        let line = error_line(rt.alloc(), &LOOP_SUM[..at], &rt);
        assert!(rt; line <= lines, "{at}");
        if at > 0 && at < 157 {
            assert!(rt; line > 0, "{at}");
        }
        if LOOP_SUM[at] == b'\n' {
            lines = lines.saturating_add(1);
        }
    }
}

fn stands_nowhere(rt: &impl Abort, alloc: Global, byte: u8) -> Result<(), AllocError> {
    let mut lines: usize = 1;
    for at in 0..=LOOP_SUM.len() {
        let (front, back) = LOOP_SUM.split_at(at);
        let mut text = Vec::from_slice(alloc, front)?;
        text.push(byte)?;
        text.extend_from_slice(back)?;
        let line = error_line(alloc, &text, rt);
        assert_eq!(rt; line, lines, "{byte} at {at}");
        if back.first() == Some(&b'\n') {
            lines = lines.saturating_add(1);
        }
    }
    Ok(())
}

#[test]
fn bytes_that_stand_nowhere(rt: HostRuntime) -> Result<(), AllocError> {
    for byte in [0u8, 13, 127] {
        stands_nowhere(&rt, rt.alloc(), byte)?;
    }
    Ok(())
}

fn long_text(alloc: Global) -> Result<String, AllocError> {
    let mut text = TextMaker::new(alloc);
    for number in 0..40 {
        say!(text; "function $f{number}(w %p) {{\n");
        for b in 0..20 {
            say!(text; "@b{b}\n%t{b} =w add %p, {b}\n%u{b} =w call $f{b}(w %t{b})\n");
        }
        text.add("ret %p\n}\n");
    }
    text.finish()
}

fn is_long_text(rt: &impl Abort, tree: &Text) {
    is_number(rt, tree.definitions.len(), 40);
    is_number(rt, tree.symbols.len(), 40);
    is_number(rt, tree.lines, 40 * 63 + 1);
    match tree.definitions.as_slice().last() {
        Some(Definition::Function(last)) => {
            is_number(rt, last.temps.len(), 41);
            is_number(rt, last.labels.len(), 20);
            is_number(rt, last.name.number(), 39);
        }
        _ => assert!(rt; false, "a function"),
    }
}

/// Hundreds of names, blocks and functions, with memory to spare.
#[test]
fn a_long_text(rt: HostRuntime) -> Result<(), AllocError> {
    let text = long_text(rt.alloc())?;
    match read(rt.alloc(), text.as_bytes()) {
        Ok(tree) => is_long_text(&rt, &tree),
        Err(_) => assert!(rt; false, "a text"),
    }
    Ok(())
}
