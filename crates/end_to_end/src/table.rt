//! The table of programs, read line by line.
//!
//! A line begins with a key; lines that begin with `//`, and empty ones, say nothing.
//!
//! | Line | Meaning |
//! |---|---|
//! | `group NAME` | the cases from here on belong to this group |
//! | `case NAME` | a case begins |
//! | `file PATH` | a text of it: the bytes of this file |
//! | `text`, `main` | a text: the lines up to one that is a dot; of `main` the lines of the function `main` after its first label |
//! | `made WORD N` | texts made by a rule |
//! | `words W W ..`, `many N W`, `long N`, `zero` | argument words: these; N times W; one of N letters; one with a byte 0 |
//! | `end END` | the end: `exit N`, `halt`, `limit`, `undefined`, `stack`, or a refusal as its line has it |
//! | `output HEX`, `prints`, `zeros N` | the output: in hexadecimal; the lines up to one that is a dot; N bytes 0 |
//! | `limit N`, `turns N`, `price N`, `needs N N ..`, `weighs N N ..` | turns and instructions given; turns and price of the run; measures of the functions |
//! | `additions N` | at least so many instructions of its file add |
//! | `registers N` | at least so often linear scan names a register of the machine for a line or a jump |
//! | `tried`, `differs`, `cut`, `large` | strategies of every kind are tried; the bytes by both strategies differ; linear scan moves a value; it is compiled once |
use crate::case::Case;
use crate::texts::made::push_made;
use std::alloc::{AllocError, Global};
use std::rt::Files;
use std::{fs, io, str};

/// What the next lines are.
#[derive(Clone, Copy, PartialEq, Eq)]
enum Lines {
    Keys,
    Main,
    Text,
    Printed,
}

/// The cases so far, and the block of lines that is read.
#[derive(Drop)]
pub struct CaseTable {
    alloc: Global,
    pub cases: Vec<Case>,
    group: String,
    lines: Lines,
    block: String,
}

impl CaseTable {
    pub fn new(alloc: Global) -> CaseTable {
        CaseTable {
            alloc,
            cases: Vec::new(alloc),
            group: String::new(alloc),
            lines: Lines::Keys,
            block: String::new(alloc),
        }
    }

    /// Takes the next line.
    pub fn take<R: Files + AllocGlobal>(&mut self, rt: &R, line: &str) -> io::Result<()> {
        if self.lines != Lines::Keys {
            self.take_block_line(line)?;
            return Ok(());
        }
        let (key, rest) = line.split_once(' ').unwrap_or((line, ""));
        match key {
            "" | "//" => {}
            "group" => self.group = String::from_str(self.alloc, rest)?,
            "case" => {
                let case = Case::new(self.alloc, self.group.as_str(), rest)?;
                self.cases.push(case)?
            }
            "file" => {
                let bytes = fs::read(rt, rest)?;
                self.end(Lines::Text, bytes)?
            }
            "text" => self.begin(Lines::Text, "")?,
            "main" => self.begin(Lines::Main, "export function w $main() {\n@s\n")?,
            "prints" => self.begin(Lines::Printed, "")?,
            _ => {
                if let Some(case) = self.cases.last_mut() {
                    take_of(self.alloc, case, key, rest)?
                }
            }
        }
        Ok(())
    }

    fn begin(&mut self, lines: Lines, first: &str) -> Result<(), AllocError> {
        self.lines = lines;
        self.block = String::from_str(self.alloc, first)?;
        Ok(())
    }

    fn take_block_line(&mut self, line: &str) -> Result<(), AllocError> {
        if line != "." {
            self.block.push_str(line)?;
            return self.block.push('\n');
        }
        let lines = self.lines;
        self.lines = Lines::Keys;
        if lines == Lines::Main {
            self.block.push_str("}\n")?;
        }
        let bytes = self.block.as_bytes().to_vec(self.alloc)?;
        self.end(lines, bytes)
    }

    /// The last case has these bytes as its output, or as another text.
    fn end(&mut self, lines: Lines, bytes: Vec<u8>) -> Result<(), AllocError> {
        if let Some(case) = self.cases.last_mut() {
            match lines {
                Lines::Printed => case.wanted.output = bytes,
                _ => case.texts.push(bytes)?,
            }
        }
        Ok(())
    }
}

// The number that a line has.
fn number(text: &str) -> u64 {
    text.parse::<u64>().unwrap_or(0)
}

// Whether it is the key of a mark or of a bound, which is set then, a bound to this number.
fn takes_bound(case: &mut Case, key: &str, number: u64) -> bool {
    match key {
        "tried" => case.marks.is_tried = true,
        "differs" => case.marks.differs = true,
        "cut" => case.marks.is_cut = true,
        "large" => case.marks.is_large = true,
        "limit" => case.bounds.limit = Some(number),
        "turns" => case.bounds.turns = Some(number),
        "price" => case.bounds.price = Some(number),
        "additions" => case.bounds.additions = number as usize,
        "registers" => case.bounds.registers = number,
        _ => return false,
    }
    true
}

fn take_of(alloc: Global, case: &mut Case, key: &str, rest: &str) -> Result<(), AllocError> {
    if takes_bound(case, key, number(rest)) {
        return Ok(());
    }
    match key {
        "made" => {
            let (word, count) = rest.split_once(' ').unwrap_or((rest, "0"));
            push_made(alloc, &mut case.texts, word, number(count))?
        }
        "words" => {
            for word in rest.split(' ') {
                push_many(alloc, &mut case.words, 1, word)?;
            }
        }
        "many" => {
            let (count, word) = rest.split_once(' ').unwrap_or(("0", rest));
            push_many(alloc, &mut case.words, number(count), word)?
        }
        "long" => {
            let word = "p".repeat(alloc, number(rest) as usize)?;
            push_many(alloc, &mut case.words, 1, word.as_str())?
        }
        "zero" => push_many(alloc, &mut case.words, 1, "a\0b")?,
        "end" => case.wanted.end = String::from_str(alloc, rest)?,
        "output" => case.wanted.output = bytes_of(alloc, rest)?,
        "zeros" => case.wanted.output.resize(number(rest) as usize, 0)?,
        "needs" => case.needs = String::from_str(alloc, rest)?,
        "weighs" => case.weights = String::from_str(alloc, rest)?,
        // A key that there isn't must not go unseen.
        _ => case.wanted.end = format!(in alloc; "no key {key}")?,
    }
    Ok(())
}

fn push_many(
    alloc: Global,
    words: &mut Vec<String>,
    count: u64,
    word: &str,
) -> Result<(), AllocError> {
    for _ in 0..count {
        words.push(String::from_str(alloc, word)?)?;
    }
    Ok(())
}

// The bytes that pairs of hexadecimal digits stand for.
pub fn bytes_of(alloc: Global, digits: &str) -> Result<Vec<u8>, AllocError> {
    let mut bytes = Vec::new(alloc);
    for pair in digits.as_bytes().chunks(2) {
        let pair = str::from_utf8(pair).unwrap_or("");
        bytes.push(u8::from_str_radix(pair, 16).unwrap_or(0))?;
    }
    Ok(bytes)
}
