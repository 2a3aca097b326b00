//! How many instructions the executables of the examples take, and how many turns their programs.
use crate::interpreter::end_of;
use elf_file::read_image;
use il_ast::End;
use qbec::compile::compile;
use regalloc::linear_scan::LinearScan;
use rv_machine::{FlatRam, Machine, Stop};
use std::alloc::{AllocError, Global};
use std::rt::Files;
use std::{fs, io};

/// The texts of each program that ends, and its argument words.
pub const EXAMPLES: [(&str, &str); 15] = [
    ("hello", ""),
    ("status", ""),
    ("sum", ""),
    ("fibonacci", ""),
    ("gcd", ""),
    ("primes", ""),
    ("factorial", ""),
    ("queens", ""),
    ("crc32", ""),
    ("sort", ""),
    ("life", ""),
    ("machine", ""),
    ("echo", "one two three"),
    ("calculator", "2 3 + 4 x"),
    ("stack stack_use", ""),
];

/// What is run: the executable file, or the texts by the interpreter.
#[derive(Clone, Copy)]
enum Run<'x> {
    File(&'x [u8]),
    Texts(&'x [&'x [u8]]),
}

/// No run is followed for longer: 2^24 instructions or turns.
const STEPS: u32 = 24;

impl Run<'_> {
    // Whether it has ended within so many instructions or turns; none where it can't be run.
    fn ends(&self, alloc: Global, words: &[&[u8]], limit: u64) -> Option<bool> {
        match self {
            Run::File(file) => {
                let loaded = read_image(alloc, file).ok()?;
                let machine: Machine<FlatRam> = Machine::start(alloc, &loaded, words).ok()?;
                let (_, stop) = machine.run(alloc, limit);
                Some(stop != Stop::Limit)
            }
            Run::Texts(texts) => Some(end_of(alloc, texts, words, limit)? != End::Turns),
        }
    }

    // With how many instructions or turns it ends: the least number, looked for by halves.
    fn length(&self, alloc: Global, words: &[&[u8]]) -> Option<u64> {
        let mut below = 0u64;
        let mut enough = 1u64 << STEPS;
        if !self.ends(alloc, words, enough)? {
            return None;
        }
        for _ in 0..STEPS {
            let middle = below.saturating_add(enough.saturating_sub(below) / 2);
            if self.ends(alloc, words, middle)? {
                enough = middle;
            } else {
                below = middle;
            }
        }
        Some(enough)
    }
}

// The instructions and the turns of the program of the texts, or none where it isn't one, or is too long.
fn lengths(alloc: Global, texts: &[&[u8]], words: &[&[u8]]) -> Option<(u64, u64)> {
    let file = compile(alloc, texts, &mut LinearScan::new(alloc)).ok()?;
    let instructions = Run::File(file.as_slice()).length(alloc, words)?;
    let turns = Run::Texts(texts).length(alloc, words)?;
    Some((instructions, turns))
}

// What is said of the program of the texts with words between spaces.
fn said(alloc: Global, texts: &[Vec<u8>], words: &str) -> Result<String, AllocError> {
    let slices: Vec<&[u8]> = texts.iter().map(|text| text.as_slice()).collect(alloc)?;
    let bytes: Vec<&[u8]> = words
        .split_whitespace()
        .map(|word| word.as_bytes())
        .collect(alloc)?;
    match lengths(alloc, slices.as_slice(), bytes.as_slice()) {
        Some((instructions, turns)) => {
            format!(in alloc; "{instructions} instructions, {turns} turns")
        }
        None => String::from_str(alloc, "no program that ends, or no memory"),
    }
}

/// What is said of an example whose texts stand in the folder: how many instructions its executable takes, and how many turns it takes.
///
/// # Errors
///
/// Where a text can't be read, or memory was refused.
pub fn example<R: Files + AllocGlobal>(
    rt: &R,
    folder: &str,
    names: &str,
    words: &str,
) -> io::Result<String> {
    let mut texts = Vec::new(rt.alloc());
    for name in names.split_whitespace() {
        let path = format!(in rt.alloc(); "{folder}/{name}.ssa")?;
        texts.push(fs::read(rt, path.as_str())?)?;
    }
    Ok(said(rt.alloc(), texts.as_slice(), words)?)
}
