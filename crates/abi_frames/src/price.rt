//! Whether code stays within the price of its function.
ghost use Rattle.il_ast.specs.declared.limits.TheConstants.{FUNCTION_WEIGHT};
ghost use Rattle.std.specs.Prelude.{◌≡◌, ◌+◌, ◌*◌, ◌^◌, ◌<◌, ◌≤◌, nat_le, sum_by};
ghost use Rattle.rv_isa.specs.Prelude.{longest, longest_size};
ghost use Rattle.vcode.specs.Prelude.{weight_of, code_weight};
ghost use Rattle.abi_frames.specs.Emission.{left_by, left_behind};
ghost use Rattle.abi_frames.specs.Functions.{price};

use rv_isa::Item;
use vcode::cost::line_cost;
use vcode::{Block, Code, Line, Location};

/// Returns have copies of a frame's end that restores no more registers than so many.
pub const COPIED_RESTORES: usize = 4;

fn weight_of(line: &Line<Location>) -> u64
    ensures { result ≡ weight_of line.now }
{
    match line {
        Line::Tick { weight, .. } => u64::from(*weight),
        Line::Set { .. }
        | Line::Operate { .. }
        | Line::Load { .. }
        | Line::Store { .. }
        | Line::Alloc { .. }
        | Line::Blit { .. }
        | Line::Call { .. } => 0,
    }
}

fn lines_weight(lines: &[Line<Location>]) -> u64
    requires { sum_by weight_of lines.now ≤ FUNCTION_WEIGHT }
    ensures { result ≡ sum_by weight_of lines.now }
{
    let mut total = 0;
    for line in lines {
        total += weight_of(line);
    }
    total
}

fn blocks_weight(blocks: &[Block<Location>]) -> u64
    requires { sum_by (λ b. sum_by weight_of b.lines) blocks.now ≤ FUNCTION_WEIGHT }
    ensures { result ≡ sum_by (λ b. sum_by weight_of b.lines) blocks.now }
{
    let mut total = 0;
    for block in blocks {
        total += lines_weight(block.lines.as_slice());
    }
    total
}

/// At most so many words the code of a function may have.
pub(crate) fn price(code: &Code<Location>) -> u64
    requires { code_weight code.now ≤ FUNCTION_WEIGHT }
    ensures { result ≡ price code.now }
{
    32 * blocks_weight(code.blocks.as_slice()) + 256
}

/// What a line leaves of so many instructions that are paid for.
fn left_by(credit: u128, line: &Line<Location>) -> u128
    requires { credit + 2 ^ 37 < 2 ^ 128 }
    ensures value { result ≡ left_by credit line.now }
    ensures small { result ≤ credit + 2 ^ 37 }
{
    match line {
        Line::Tick { weight, .. } => credit + 32 * u128::from(*weight),
        Line::Set { .. }
        | Line::Operate { .. }
        | Line::Load { .. }
        | Line::Store { .. }
        | Line::Alloc { .. }
        | Line::Blit { .. }
        | Line::Call { .. } => credit.saturating_sub(line_cost(line)),
    }
}

/// How many instructions the ticks of a block pay for besides its lines.
pub(crate) fn left_behind(lines: &[Line<Location>]) -> u128
    ensures { result ≡ left_behind 0 lines.now }
{
    let mut left = 0u128;
    for line in lines {
        left = left_by(left, line);
    }
    left
}

/// At most so many words an item becomes.
fn longest(item: &Item) -> u64
    ensures { result ≡ longest item.now }
{
    match item {
        Item::Label(_) => 0,
        Item::Plain(_) | Item::Relocated(_) => 1,
        Item::Goto(_) | Item::Call(_) => 2,
        Item::Branch { .. } => 3,
    }
}

/// Do the items become no more than so many words?
pub(crate) fn is_within(items: &[Item], words: u64) -> bool
    ensures { result ≡ nat_le (longest_size items.now) words }
{
    let mut left = words;
    for item in items {
        let taken = longest(item);
        if left < taken {
            return false;
        }
        left -= taken;
    }
    true
}
