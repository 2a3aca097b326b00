//! Disassembled files.
ghost use Rattle.std.specs.Prelude.{◌≡◌, ◌+◌, ◌^◌, ◌<◌, ◌++◌, length, map, IfOk, OnOk, string_bytes};
ghost use Rattle.shell.specs.Lines.{dis_lines, eight_digits, line, lines_of, segment_lines, word_text};

use elf_file::{Loaded, Segment};
use rv_isa::decode::decode;
use rv_isa::text::text;
use std::alloc::{AllocError, Global};

/// The last eight hexadecimal digits of a number.
#[tactic(auto, using(std::proofs::lemmas::Fmt::hex_byte), unfolding(crate::specs::Lines::eight_digits))]
fn eight_digits(alloc: Global, number: u64) -> Result<String, AllocError>
    ensures { IfOk result (λ s. string_bytes s ≡ eight_digits number) }
{
    let a = (number / 0x100_0000 % 0x100) as u8;
    let b = (number / 0x1_0000 % 0x100) as u8;
    let c = (number / 0x100 % 0x100) as u8;
    let d = (number % 0x100) as u8;
    format!(in alloc; "{a:02x}{b:02x}{c:02x}{d:02x}")
}

/// The text of a word.
#[tactic(auto, unfolding(crate::specs::Lines::word_text))]
fn word_text(alloc: Global, word: u32) -> Result<String, AllocError>
    ensures { IfOk result (λ s. string_bytes s ≡ word_text word) }
{
    match decode(word) {
        Some(instr) => text(alloc, instr),
        None => format!(in alloc; "?"),
    }
}

fn line(alloc: Global, address: u64, word: u32) -> Result<String, AllocError>
    ensures { IfOk result (λ s. string_bytes s ≡ line address word) }
{
    let place = eight_digits(alloc, address)?;
    let digits = eight_digits(alloc, word as u64)?;
    let shown = word_text(alloc, word)?;
    format!(in alloc; "{place}  {digits}  {shown}\n")
}

fn push_lines(
    alloc: Global,
    lines: &mut Vec<String>,
    start: u64,
    bytes: &[u8],
) -> Result<(), AllocError>
    requires { start + length bytes.now < 2 ^ 64 }
    ensures { OnOk result (map string_bytes lines.new.items ≡ map string_bytes lines.old.items ++ lines_of start bytes.now) }
{
    let mut address = start;
    let mut rest = bytes;
    while let [a, b, c, d, after @ ..] = rest {
        let next = line(alloc, address, u32::from_le_bytes([*a, *b, *c, *d]))?;
        lines.push(next)?;
        address += 4;
        rest = after;
    }
    Ok(())
}

fn push_segment(alloc: Global, lines: &mut Vec<String>, segment: &Segment) -> Result<(), AllocError>
    ensures { OnOk result (map string_bytes lines.new.items ≡ map string_bytes lines.old.items ++ segment_lines segment.now) }
{
    if segment.flags().is_executable() {
        push_lines(alloc, lines, segment.address(), segment.file_bytes())?;
    }
    Ok(())
}

/// The lines of a disassembly, each with its line end: one for each four of the file bytes of each executable segment, in order.
///
/// A line has the address as eight hexadecimal digits, the word as eight, and the text of its instruction, or `?` where it is none. File bytes at the end of a
/// segment that are fewer than four have no line.
///
/// Fails only for want of memory.
pub fn dis_lines(alloc: Global, file: &Loaded) -> Result<Vec<String>, AllocError>
    ensures { IfOk result (λ lines. map string_bytes lines.items ≡ dis_lines file.now.mappings) }
{
    let mut lines = Vec::new(alloc);
    for segment in file.segments() {
        push_segment(alloc, &mut lines, segment)?;
    }
    Ok(lines)
}
