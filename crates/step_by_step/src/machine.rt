//! The machine: words of instructions one after another, and what they leave.
//!
//! A line that is given has words in hexadecimal, joined by `+`, and what registers 5 and 6 hold before them. Register 7 holds 0, and 16 bytes of data stand at 0x11000. For
//! each line stands what register 7 holds behind the words, and where the machine is then; or where it stopped, what register 5 holds then, and where the machine is.
use crate::files::file_of;
use elf_file::read_image;
use rv_isa::Register;
use rv_machine::{Machine, PageRam, Stop};
use std::alloc::Global;
use text_maker::{TextMaker, say};

const X5: Register = Register { number: 5 };

const X7: Register = Register { number: 7 };

/// The data, behind which the values of registers 5 and 6 stand.
const DATA: [u8; 16] = [
    0x48, 0x69, 0x0a, 0x81, 0xf2, 0xf3, 0xf4, 0xf5, 0xf6, 0xf7, 0xf8, 0xf9, 0xfa, 0xfb, 0xfc, 0xfd,
];

/// `lui x5, 0x11`, `ld x6, 24(x5)`, `ld x5, 16(x5)` and `addi x7, x0, 0`.
const BEFORE: [u32; 4] = [0x0001_12b7, 0x0182_b303, 0x0102_b283, 0x0000_0393];

fn code_of(alloc: Global, words: &str) -> Option<Vec<u32>> {
    let mut code = BEFORE.to_vec(alloc).ok()?;
    for word in words.split('+') {
        code.push(u32::from_str_radix(word, 16).ok()?).ok()?;
    }
    Some(code)
}

/// A machine that starts at a program of these words, with the values of registers 5 and 6 behind its data.
fn started(alloc: Global, code: Vec<u32>, x5: u64, x6: u64) -> Option<Machine<PageRam>> {
    let mut data = DATA.to_vec(alloc).ok()?;
    data.extend_from_slice(&x5.to_le_bytes()).ok()?;
    data.extend_from_slice(&x6.to_le_bytes()).ok()?;
    let loaded = read_image(alloc, &file_of(alloc, code, data)?).ok()?;
    Machine::start(alloc, &loaded, &[]).ok()
}

/// The first stop within so many instructions.
fn stop_within(machine: &mut Machine<PageRam>, count: usize) -> Option<Stop> {
    (0..count).find_map(|_| machine.step().err())
}

fn row_left(alloc: Global, line: &str) -> Option<String> {
    let mut fields = line.split_whitespace();
    let code = code_of(alloc, fields.next()?)?;
    let x5 = u64::from_str_radix(fields.next()?, 16).ok()?;
    let x6 = u64::from_str_radix(fields.next()?, 16).ok()?;
    let count = code.len();
    let mut machine = started(alloc, code, x5, x6)?;
    let stop = stop_within(&mut machine, count);
    let (pc, x5, x7) = (machine.pc(), machine.register(X5), machine.register(X7));
    match stop {
        None => format!(in alloc; "{x7:x} at {pc:x}").ok(),
        Some(stop) => format!(in alloc; "{stop:?}: {x5:x} at {pc:x}").ok(),
    }
}

/// What the words of each line leave.
pub fn left(alloc: Global, lines: &str) -> Option<String> {
    let mut to = TextMaker::new(alloc);
    for line in lines.lines() {
        say!(to; "{}\n", row_left(alloc, line)?);
    }
    to.finish().ok()
}
