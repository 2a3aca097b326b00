//! How much room a function's blocks of memory and the arguments of its calls take in its frame.
ghost use Rattle.il_ast.specs.declared.limits.TheConstants.{ALLOC_BYTES};
ghost use Rattle.std.specs.Prelude.{◌≡◌, ◌≤◌, sum_by};
ghost use Rattle.vcode.specs.Prelude.{alloc_bytes, area};
ghost use Rattle.abi_frames.specs.Performs.{args_on_stack, most_in_lines, most_in_blocks, outgoing};

use rv_isa::abi;
use vcode::{Block, Code, Line, Location};

/// The bytes of the area for blocks of memory that a line takes.
pub(crate) fn alloc_bytes(line: &Line<Location>) -> u64
    requires { alloc_bytes line.now ≤ ALLOC_BYTES }
    ensures { result ≡ alloc_bytes line.now }
{
    match line {
        Line::Alloc { size, .. } => (*size + 15) / 16 * 16,
        Line::Tick { .. }
        | Line::Set { .. }
        | Line::Operate { .. }
        | Line::Load { .. }
        | Line::Store { .. }
        | Line::Blit { .. }
        | Line::Call { .. } => 0,
    }
}

fn lines_area(lines: &[Line<Location>]) -> u64
    requires { sum_by alloc_bytes lines.now ≤ ALLOC_BYTES }
    ensures { result ≡ sum_by alloc_bytes lines.now }
{
    let mut total = 0;
    for line in lines {
        total += alloc_bytes(line);
    }
    total
}

fn blocks_area(blocks: &[Block<Location>]) -> u64
    requires { sum_by (λ b. sum_by alloc_bytes b.lines) blocks.now ≤ ALLOC_BYTES }
    ensures { result ≡ sum_by (λ b. sum_by alloc_bytes b.lines) blocks.now }
{
    let mut total = 0;
    for block in blocks {
        total += lines_area(block.lines.as_slice());
    }
    total
}

/// The bytes of the area for blocks of memory.
pub(crate) fn area_of(code: &Code<Location>) -> u64
    requires { area code.now ≤ ALLOC_BYTES }
    ensures { result ≡ area code.now }
{
    blocks_area(code.blocks.as_slice())
}

fn args_on_stack(line: &Line<Location>) -> u64
    ensures { result ≡ args_on_stack line.now }
{
    match line {
        Line::Call { args, .. } => (args.len() as u64).saturating_sub(u64::from(
            abi::ARGUMENT_REGISTERS,
        )),
        Line::Tick { .. }
        | Line::Set { .. }
        | Line::Operate { .. }
        | Line::Load { .. }
        | Line::Store { .. }
        | Line::Alloc { .. }
        | Line::Blit { .. } => 0,
    }
}

fn most_in_lines(lines: &[Line<Location>]) -> u64
    ensures { result ≡ most_in_lines lines.now }
{
    let mut most = 0;
    for line in lines {
        most = most.max(args_on_stack(line));
    }
    most
}

fn most_in_blocks(blocks: &[Block<Location>]) -> u64
    ensures { result ≡ most_in_blocks blocks.now }
{
    let mut most = 0;
    for block in blocks {
        most = most.max(most_in_lines(block.lines.as_slice()));
    }
    most
}

/// The most arguments that a call passes on the stack.
pub(crate) fn outgoing_of(code: &Code<Location>) -> u64
    ensures { result ≡ outgoing code.now }
{
    most_in_blocks(code.blocks.as_slice())
}
