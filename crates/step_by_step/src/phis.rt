//! Functions without phis: what the copies that stand for phis leave in the temporaries, and virtual code.
ghost use Rattle.std.specs.Prelude.{◌≡◌, Some, IfSome, slice_get};
ghost use Rattle.phi_copies.specs.Good.{IsGoodFunction};

use crate::code_text::function::virtual_text;
use il_ast::{Class, Definition, Func, Text, Val};
use il_reader::read::read;
use il_types::check::check;
use phi_copies::ending::Assignment;
use phi_copies::lower::lower;
use promote::promote::promote;
use select::select::select;
use std::alloc::Global;
use text_maker::{TextMaker, say};

/// How many temporaries the functions have; those behind them may be used besides.
const OWN: usize = 12;

/// The value of the global name.
const NAMED: u64 = 0x5000_0000_6000;

/// What is copied.
fn read_of(values: &[u64; 24], copy: &Assignment) -> u64 {
    let value = match copy.value {
        Val::Int(number) => number,
        Val::Temp(temp) => values.get(temp.number()).copied().unwrap_or(0),
        Val::Global(_) => NAMED,
    };
    match copy.to.class {
        Class::W => value % (1 << 32),
        Class::L => value,
    }
}

/// What the temporaries, each of which has a number of its own at first, hold after copies one after another.
fn after_each(copies: &[Assignment]) -> [u64; 24] {
    let mut values = [0; 24];
    for i in 0..24usize {
        values[i] = 0x0a00_0000_0b00 + i as u64;
    }
    for copy in copies {
        let value = read_of(&values, copy);
        if let Some(held) = values.get_mut(copy.to.temp.number()) {
            *held = value;
        }
    }
    values
}

/// The copies at the end of the first block: how many there are, and what they leave.
fn first_copies(alloc: Global, function: &Func) -> Option<String>
    requires { IsGoodFunction function.now }
{
    let lowered = lower(alloc, function).ok()?;
    let copies = lowered.endings.as_slice().first()?.copies.as_slice();
    let mut out = TextMaker::new(alloc);
    say!(out; "{} copies\n", copies.len());
    for value in after_each(copies).iter().take(OWN) {
        say!(out; "{value:02x}\n");
    }
    out.finish().ok()
}

/// The virtual code that is selected for a function.
fn code_of(alloc: Global, function: &Func) -> Option<String>
    requires { IsGoodFunction function.now }
{
    let lowered = lower(alloc, function).ok()?;
    let code = select(alloc, &lowered).ok()?;
    virtual_text(alloc, &code).ok()
}

/// The virtual code that is selected for a function whose locals were taken out of memory.
fn promoted_code(alloc: Global, function: &Func) -> Option<String>
    requires { IsGoodFunction function.now }
{
    match promote(alloc, function) {
        Ok(promoted) => code_of(alloc, &promoted),
        Err(_) => None,
    }
}

/// What is to be shown of a function.
#[derive(Clone, Copy)]
pub enum Part {
    /// how many copies its phis become at the end of its first block, and what these leave in its temporaries
    Copies,
    /// the virtual code that is selected for it
    Code,
    /// the same once its locals are taken out of memory
    PromotedCode,
}

fn part_of(alloc: Global, function: &Func, part: Part) -> Option<String>
    requires { IsGoodFunction function.now }
{
    match part {
        Part::Copies => first_copies(alloc, function),
        Part::Code => code_of(alloc, function),
        Part::PromotedCode => promoted_code(alloc, function),
    }
}

/// The function that a text begins with.
fn first_function(text: &Text) -> Option<&Func>
    ensures { IfSome result (λ function. slice_get text.now.definitions 0 ≡ Some (Definition.Function function.now)) }
{
    match text.definitions.as_slice().first() {
        Some(Definition::Function(function)) => Some(function),
        _ => None,
    }
}

fn checked_part(alloc: Global, tree: Text, part: Part) -> Option<String> {
    match check(alloc, tree) {
        Ok(checked) => match first_function(&checked.text) {
            Some(function) => part_of(alloc, function, part),
            None => None,
        },
        Err(_) => None,
    }
}

/// What is to be shown of a text's first function.
pub fn shown_of(alloc: Global, text: &str, part: Part) -> Option<String> {
    checked_part(alloc, read(alloc, text.as_bytes()).ok()?, part)
}
