//! Which registers a function saves.
ghost use Rattle.std.specs.Prelude.{◌≡◌, ◌++◌, ◌<◌, ◌≤◌, ◌||◌, ℕ, false, filter, length, OnOk, IfOk};
ghost use Rattle.std.specs.List.{list_any};
ghost use Rattle.abi_frames.specs.Performs.{is_register, writes, block_writes, is_written, written_of, callee_saved, is_call, block_calls, return_address, saved_registers, is_marked};

use rv_isa::abi;
use std::alloc::{AllocError, Global};
use vcode::{Block, Code, Destination, Line, Location};

fn is_call(line: &Line<Location>) -> bool
    ensures { result ≡ is_call line.now }
{
    match line {
        Line::Call { .. } => true,
        Line::Tick { .. }
        | Line::Set { .. }
        | Line::Operate { .. }
        | Line::Load { .. }
        | Line::Store { .. }
        | Line::Alloc { .. }
        | Line::Blit { .. } => false,
    }
}

/// How many registers are marked.
const REGISTERS: usize = 32;

/// Marks the register, if the place is one.
fn mark(marks: &mut [bool], place: &Location)
    ensures length { length marks.new ≡ length marks.old }
    ensures marked { (n : ℕ) → n < length marks.old → is_marked marks.new n ≡ (is_marked marks.old n || is_register n place.now) }
{
    if let Location::Register(register) = place {
        if (*register as usize) < marks.len() {
            marks[*register as usize] = true;
        }
    }
}

/// Marks the register that the line writes.
fn mark_line(marks: &mut [bool], line: &Line<Location>)
    ensures length { length marks.new ≡ length marks.old }
    ensures marked { (n : ℕ) → n < length marks.old → is_marked marks.new n ≡ (is_marked marks.old n || writes n line.now) }
{
    match line {
        Line::Set { to, .. } | Line::Operate { to, .. } | Line::Load { to, .. } => mark(marks, to),
        Line::Alloc { to, .. } => match to {
            Some(place) => mark(marks, place),
            None => {}
        },
        Line::Call { to, .. } => match to {
            Some(wanted) => mark(marks, &wanted.place),
            None => {}
        },
        Line::Tick { .. } | Line::Store { .. } | Line::Blit { .. } => {}
    }
}

fn mark_lines(marks: &mut [bool], lines: &[Line<Location>])
    ensures length { length marks.new ≡ length marks.old }
    ensures marked { (n : ℕ) → n < length marks.old → is_marked marks.new n ≡ (is_marked marks.old n || list_any (writes n) lines.now) }
{
    for line in lines {
        mark_line(marks, line);
    }
}

fn mark_blocks(marks: &mut [bool], blocks: &[Block<Location>])
    ensures length { length marks.new ≡ length marks.old }
    ensures marked { (n : ℕ) → n < length marks.old → is_marked marks.new n ≡ (is_marked marks.old n || list_any (block_writes n) blocks.now) }
{
    for block in blocks {
        mark_lines(marks, block.lines.as_slice());
    }
}

fn mark_params(marks: &mut [bool], params: &[Destination<Location>])
    ensures length { length marks.new ≡ length marks.old }
    ensures marked { (n : ℕ) → n < length marks.old → is_marked marks.new n ≡ (is_marked marks.old n || list_any (λ d. is_register n d.place) params.now) }
{
    for parameter in params {
        mark(marks, &parameter.place);
    }
}

/// Marks the registers that the code writes.
fn mark_written(marks: &mut [bool], code: &Code<Location>)
    requires { (n : ℕ) → n < length marks.old → is_marked marks.old n ≡ false }
    ensures length { length marks.new ≡ length marks.old }
    ensures marked { (n : ℕ) → n < length marks.old → is_marked marks.new n ≡ is_written code.now n }
{
    mark_params(marks, code.params.as_slice());
    mark_blocks(marks, code.blocks.as_slice());
}

/// Those of the registers that are marked.
fn push_marked(saved: &mut Vec<u8>, marks: &[bool], registers: &[u8]) -> Result<(), AllocError>
    ensures { OnOk result (saved.new.items ≡ saved.old.items ++ filter (is_marked marks.now) registers.now) }
{
    for number in registers {
        if marks.get(*number as usize) == Some(&true) {
            saved.push(*number)?;
        }
    }
    Ok(())
}

/// Those that the code writes of the registers that a callee keeps, by marks of which none is set yet.
fn push_by_marks(
    saved: &mut Vec<u8>,
    code: &Code<Location>,
    marks: &mut [bool],
) -> Result<(), AllocError>
    requires long { length marks.old ≡ 32 }
    requires none { (n : ℕ) → n < length marks.old → is_marked marks.old n ≡ false }
    ensures { OnOk result (saved.new.items ≡ saved.old.items ++ written_of code.now callee_saved) }
{
    mark_written(marks, code);
    push_marked(saved, marks, abi::SAVED.as_slice())
}

/// Those that the code writes of the registers that a callee keeps.
fn push_written(saved: &mut Vec<u8>, code: &Code<Location>) -> Result<(), AllocError>
    ensures { OnOk result (saved.new.items ≡ saved.old.items ++ written_of code.now callee_saved) }
{
    let mut marks = [false; REGISTERS];
    push_by_marks(saved, code, marks.as_mut_slice())
}

fn lines_call(lines: &[Line<Location>]) -> bool
    ensures { result ≡ list_any is_call lines.now }
{
    for line in lines {
        if is_call(line) {
            return true;
        }
    }
    false
}

fn block_calls(block: &Block<Location>) -> bool
    ensures { result ≡ block_calls block.now }
{
    lines_call(block.lines.as_slice())
}

fn blocks_call(blocks: &[Block<Location>]) -> bool
    ensures { result ≡ list_any block_calls blocks.now }
{
    for block in blocks {
        if block_calls(block) {
            return true;
        }
    }
    false
}

fn push_return_address(saved: &mut Vec<u8>, code: &Code<Location>) -> Result<(), AllocError>
    ensures { OnOk result (saved.new.items ≡ saved.old.items ++ return_address code.now) }
{
    if blocks_call(code.blocks.as_slice()) {
        saved.push(abi::RETURN_ADDRESS)?;
    }
    Ok(())
}

/// The registers that a function saves: x1 if its code makes a call, and those of x8, x9 and x18 to x27 that its code writes.
pub(crate) fn saved_registers(alloc: Global, code: &Code<Location>) -> Result<Vec<u8>, AllocError>
    ensures { IfOk result (λ v. v.items ≡ saved_registers code.now) }
{
    let mut saved = Vec::new(alloc);
    push_return_address(&mut saved, code)?;
    push_written(&mut saved, code)?;
    Ok(saved)
}
