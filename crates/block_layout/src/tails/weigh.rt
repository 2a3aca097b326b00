//! Whether the ticks of blocks are few.
ghost use Rattle.std.specs.Prelude.{◌≡◌, ◌+◌, ◌≤◌, true, IfSome, sum_by};
ghost use Rattle.il_ast.specs.declared.limits.TheConstants.{FUNCTION_WEIGHT};
ghost use Rattle.block_layout.specs.Joined.{burden, block_burden};

use il_ast::limits::FUNCTION_WEIGHT;
use vcode::{Block, Line};

/// The weight of a tick and the turn that it begins.
fn burden(line: &Line<u32>) -> u64
    ensures { result ≡ burden line.now }
{
    match line {
        Line::Tick { turn, weight } => {
            if *turn {
                u64::from(*weight) + 1
            } else {
                u64::from(*weight)
            }
        }
        _ => 0,
    }
}

/// What is left of so much behind the lines, if they take no more.
fn left_behind(whole: u64, lines: &[Line<u32>]) -> Option<u64>
    ensures { IfSome result (λ left. sum_by burden lines.now + left ≡ whole) }
{
    let mut left = whole;
    for line in lines {
        let taken = burden(line);
        if left < taken {
            return None;
        }
        left -= taken;
    }
    Some(left)
}

/// Whether the ticks of all blocks together weigh so little, and begin so few turns, as those of a function may.
pub(crate) fn are_light(blocks: &[Block<u32>]) -> bool
    ensures { result ≡ true → sum_by block_burden blocks.now ≤ FUNCTION_WEIGHT }
{
    let mut left = FUNCTION_WEIGHT;
    for block in blocks {
        match left_behind(left, block.lines.as_slice()) {
            Some(rest) => left = rest,
            None => return false,
        }
    }
    true
}
