//! Functions whose calls are done in place.
ghost use Rattle.std.specs.Prelude.{◌≡◌, false};
ghost use Rattle.inlining.specs.InPlace.{begins_turn, is_calm, calm_behind, is_candidate};

use vcode::{Block, Line, VFunc};

/// Whether the line begins a turn.
pub(crate) fn begins_turn(line: &Line<u32>) -> bool
    ensures { result ≡ begins_turn line.now }
{
    match line {
        Line::Tick { turn, .. } => *turn,
        _ => false,
    }
}

/// Whether the line makes no block of memory, and no call where no turn began before it.
fn is_calm(turned: bool, line: &Line<u32>) -> bool
    ensures { result ≡ is_calm turned line.now }
{
    match line {
        Line::Call { .. } => turned,
        Line::Alloc { .. } => false,
        _ => true,
    }
}

fn are_calm(lines: &[Line<u32>]) -> bool
    ensures { result ≡ calm_behind false lines.now }
{
    let mut turned = false;
    for line in lines {
        if !is_calm(turned, line) {
            return false;
        }
        turned = turned || begins_turn(line);
    }
    true
}

/// Whether the function makes no block of memory, and a turn begins before each call in its block.
pub fn is_candidate(function: &VFunc) -> bool
    ensures { result ≡ is_candidate function.now.code }
{
    function
        .code
        .blocks
        .as_slice()
        .iter()
        .all(|block: &Block<u32>| are_calm(block.lines.as_slice()))
}
