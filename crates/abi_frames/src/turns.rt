//! How many turns of the source begin in a function's code.
ghost use Rattle.std.specs.Prelude.{◌≡◌, ◌≤◌, IsTrue, nat_le};
ghost use Rattle.std.specs.List.{list_all, sum_by};
ghost use Rattle.vcode.specs.Prelude.{turns_of};
ghost use Rattle.abi_frames.specs.declared.pace.TheConstants.{TURN_BOUND};
ghost use Rattle.abi_frames.specs.Performs.{falls_through};

use crate::pace::TURN_BOUND;
use vcode::{Block, Code, Line, Location};

fn turns_of(line: &Line<Location>) -> u64
    ensures { result ≡ turns_of line.now }
{
    match line {
        Line::Tick { turn: true, .. } => 1,
        Line::Tick { turn: false, .. }
        | Line::Set { .. }
        | Line::Operate { .. }
        | Line::Load { .. }
        | Line::Store { .. }
        | Line::Alloc { .. }
        | Line::Blit { .. }
        | Line::Call { .. } => 0,
    }
}

pub(crate) fn lines_turns(lines: &[Line<Location>]) -> u64
    requires { sum_by turns_of lines.now ≤ TURN_BOUND }
    ensures { result ≡ sum_by turns_of lines.now }
{
    let mut total = 0;
    for line in lines {
        total += turns_of(line);
    }
    total
}

fn are_few(blocks: &[Block<Location>]) -> bool
    requires { IsTrue (list_all (λ b. nat_le (sum_by turns_of b.lines) TURN_BOUND) blocks.now) }
    ensures { result ≡ nat_le (sum_by (λ b. sum_by turns_of b.lines) blocks.now) TURN_BOUND }
{
    let mut left = TURN_BOUND;
    for block in blocks {
        let turns = lines_turns(block.lines.as_slice());
        if left < turns {
            return false;
        }
        left -= turns;
    }
    true
}

/// May a block fall into the one behind it? Where no more than 40,000 turns begin in the code.
pub(crate) fn falls_through(code: &Code<Location>) -> bool
    requires { IsTrue (list_all (λ b. nat_le (sum_by turns_of b.lines) TURN_BOUND) code.now.blocks) }
    ensures { result ≡ falls_through code.now }
{
    are_few(code.blocks.as_slice())
}
