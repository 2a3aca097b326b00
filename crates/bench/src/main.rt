//! The test bench: what the steps of the compiler make of texts, what programs do in every way, and how fast the parts are.
//!
//! `bench` alone tries all of that, with a little of each measure, and says what came of it. `bench steps` tries the tables of the steps, `data/steps/STEP.cases`; with
//! words those of the steps that are named. `bench steps watch FILE` prints what each step makes of the only function of a text. `bench programs` tries the programs of
//! `data/programs.cases` in every way, `data/files.cases`, `data/lines.cases` and random programs; with words the groups that are named, and `bench programs random N SEED`
//! N random programs (`small_functions` likewise).
//!
//! `bench table` prints the table of the README with the time of each row. `bench examples`
//! prints for each program of examples/ that ends how many instructions its executable takes on the machine, and how many turns the program takes; a further word is the
//! folder of the texts, where that isn't `../../examples`. `bench accepted FILE...` says of each text how many certificates of linear scan the checker refuses, and how
//! many operands stand in slots. Else the words are a measure, a kind and a size, and the time is printed behind what came of it:
//!
//! | Measure | Kinds | Size |
//! |---|---|---|
//! | `machine` | `alu` (operations and a branch), `memory` (with a load and a store), `alu-paged`, `memory-paged` (over pages) | instructions |
//! | `interpreter` | `alu`, `memory`, `calls` (a recursion 50,000 deep), `phis` (a block of 195 phis) | turns |
//! | `front`, `compile`, `certificates` | `functions` (of six lines with a loop), `lines` (one function over 4,000 temporaries), `locals` (one function over 3,990 locals in memory), `wide` (one function with 3,990 temporaries live throughout), `phi` (with many predecessors), `phis` (as many as predecessors), `bytes` (a datum), `strings` (a datum of strings) | functions, lines, changes, blocks, predecessors, predecessors, bytes, characters |
//! | `text` | the same | the text itself is printed |
//! | `liveness` | `live` (blocks in reverse), `ladder`, `nest` (loops in one another) | blocks of 40 points, over 4,000 registers |
//! | `sets` | | a thousand joins of sets of numbers below it |
//! | `moves` | | moves in one cycle |
#![tactic(auto)]

mod accepted;
mod examples;
mod front;
mod graphs;
mod interpreter;
mod liveness;
mod machine;
mod moves;
mod texts;

use crate::accepted::accepted;
use crate::examples::{EXAMPLES, example};
use crate::front::{compile_text, link_text};
use crate::graphs::Shape;
use crate::interpreter::interpret_turns;
use crate::liveness::{joins, live_at_first};
use crate::machine::run_machine;
use crate::moves::moves_in_sequence;
use crate::texts::text_of;
use end_to_end::programs_told;
use std::alloc::{AllocError, Global};
use std::time::Instant;
use std::{env, fs, io};
use step_by_step::steps_told;

/// A measure, a kind and a size, for each part.
const LITTLE: [(&str, &str, u64); 12] = [
    ("machine", "alu", 1000),
    ("machine", "memory-paged", 1000),
    ("interpreter", "alu", 1000),
    ("interpreter", "phis", 1000),
    ("front", "functions", 10),
    ("compile", "bytes", 10),
    ("compile", "strings", 640),
    ("certificates", "functions", 10),
    ("certificates", "phis", 10),
    ("certificates", "wide", 10),
    ("liveness", "live", 10),
    ("moves", "", 10),
];

/// The rows of the table.
const TABLE: [(&str, &str, u64); 12] = [
    ("front", "lines", 36_000),
    ("front", "bytes", 4_000_000),
    ("compile", "strings", 12_000_000),
    ("compile", "functions", 10_000),
    ("compile", "lines", 36_000),
    ("compile", "locals", 11_900),
    ("compile", "wide", 4_500),
    ("interpreter", "alu", 20_000_000),
    ("machine", "alu", 1_000_000_000),
    ("machine", "alu-paged", 1_000_000_000),
    ("machine", "memory-paged", 1_000_000_000),
    ("liveness", "nest", 1_000),
];

fn graph_shape_of(kind: &str) -> Shape {
    match kind {
        "ladder" => Shape::Ladder,
        "nest" => Shape::Nest,
        _ => Shape::Reversed,
    }
}

/// What comes of a measure.
fn done(
    alloc: Global,
    measure: &str,
    kind: &str,
    size: u64,
    text: &[u8],
) -> Result<String, AllocError> {
    let small = size.min(100_000_000) as u32;
    match measure {
        "machine" => {
            let stores = kind.starts_with("memory");
            run_machine(alloc, stores, kind.ends_with("paged"), size)
        }
        "interpreter" => interpret_turns(alloc, kind, size),
        "front" => link_text(alloc, text),
        "compile" => compile_text(alloc, text),
        "certificates" => accepted(alloc, text),
        "liveness" => {
            let live = live_at_first(alloc, graph_shape_of(kind), small)?;
            format!(in alloc; "{live} registers are live")
        }
        "sets" => {
            let grew = joins(alloc, small as usize)?;
            format!(in alloc; "{grew} joins let a set grow")
        }
        "moves" => {
            let moves = moves_in_sequence(alloc, small as usize)?;
            format!(in alloc; "{moves} moves in order")
        }
        _ => String::from_str(alloc, "no measure"),
    }
}

/// The text that a measure needs.
fn text_for(alloc: Global, measure: &str, kind: &str, size: u64) -> Result<String, AllocError> {
    match measure {
        "front" | "compile" | "certificates" | "text" => {
            text_of(alloc, kind, size.min(100_000_000))
        }
        _ => Ok(String::new(alloc)),
    }
}

/// Prints what comes of a measure, with its time where that is asked for.
fn print_row(
    rt: &HostRuntime,
    measure: &str,
    kind: &str,
    size: u64,
    is_timed: bool,
) -> io::Result<()> {
    let text = text_for(rt.alloc(), measure, kind, size)?;
    let start = Instant::now(rt)?;
    let said = done(rt.alloc(), measure, kind, size, text.as_bytes())?;
    let time = start.elapsed(rt)?.as_millis();
    if !is_timed {
        println!(rt; "{measure} {kind} {size}: {said}")
    } else if matches!(measure, "machine" | "interpreter") {
        let millions = u128::from(size) / (time.max(1).saturating_mul(1000));
        let speed = "million steps a second";
        println!(rt; "{measure} {kind} {size}: {time} ms, {millions} {speed}, {said}")
    } else {
        println!(rt; "{measure} {kind} {size}: {time} ms, {said}")
    }
}

fn print_rows(rt: &HostRuntime, rows: &[(&str, &str, u64)], is_timed: bool) -> io::Result<()> {
    for (measure, kind, size) in rows {
        print_row(rt, *measure, *kind, *size, is_timed)?;
    }
    Ok(())
}

fn print_examples(rt: &HostRuntime, folder: &str) -> io::Result<()> {
    for (names, words) in EXAMPLES {
        println!(rt; "{names}: {}", example(rt, folder, names, words)?)?;
    }
    Ok(())
}

fn print_accepted(rt: &HostRuntime, paths: &[String]) -> io::Result<()> {
    for path in paths {
        let text = fs::read(rt, path.as_str())?;
        println!(rt; "{path}: {}", accepted(rt.alloc(), text.as_slice())?)?;
    }
    Ok(())
}

/// A word, empty where there is none.
fn word(words: &[String], k: usize) -> &str {
    words.get(k).map_or("", |word| word.as_str())
}

/// How the tables of steps and of programs came out, and a little of each measure.
fn print_all(rt: &HostRuntime) -> io::Result<()> {
    print!(rt; "{}", steps_told(rt, &[])?)?;
    print!(rt; "{}", programs_told(rt, &[])?)?;
    print_rows(rt, &LITTLE, false)
}

/// Does what the words ask for.
fn perform(rt: &HostRuntime, words: &[String]) -> io::Result<()> {
    let last = words.len().saturating_sub(1);
    let size = word(words, last).parse::<u64>().unwrap_or(10);
    let kind = word(words, 1);
    let rest = words.get(1..).unwrap_or(&[]);
    match word(words, 0) {
        "" => print_all(rt),
        "steps" => print!(rt; "{}", steps_told(rt, rest)?),
        "programs" => print!(rt; "{}", programs_told(rt, rest)?),
        "table" => print_rows(rt, &TABLE, true),
        "examples" if kind.is_empty() => print_examples(rt, "../../examples"),
        "examples" => print_examples(rt, kind),
        "accepted" => print_accepted(rt, rest),
        "text" => print!(rt; "{}", text_for(rt.alloc(), "text", kind, size)?),
        measure => print_row(rt, measure, kind, size, true),
    }
}

fn main(rt: HostRuntime) -> io::Result<()> {
    let words: Vec<String> = env::args(&rt)?.skip(1).collect(rt.alloc())?;
    perform(&rt, words.as_slice())
}
