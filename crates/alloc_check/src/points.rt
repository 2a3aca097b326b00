//! Points of virtual code: lines but for ticks, and jumps, from 0 in the order of the text.
ghost use Rattle.std.specs.Prelude.{◌≡◌, ◌<◌, ◌≤◌, ◌+◌, ◌^◌, true, nat_eq};
ghost use Rattle.alloc_check.specs.Prelude.{next_point, jump_point, end_point, bounded};

use vcode::{Block, Line};

fn next_within(point: usize, line: &Line<u32>, limit: usize) -> Option<usize>
    requires { point ≤ limit }
    ensures { result ≡ bounded limit (next_point point line.now) }
{
    match line {
        Line::Tick { .. } => Some(point),
        _ => { if point < limit { Some(point + 1) } else { None } }
    }
}

fn lines_within(first: usize, lines: &[Line<u32>], limit: usize) -> Option<usize>
    requires { first ≤ limit }
    ensures { result ≡ bounded limit (jump_point first lines.now) }
{
    let mut point = first;
    for line in lines {
        match next_within(point, line, limit) {
            Some(next) => point = next,
            None => return None,
        }
    }
    Some(point)
}

fn block_within(first: usize, block: &Block<u32>, limit: usize) -> Option<usize>
    requires { first ≤ limit }
    ensures { result ≡ bounded limit (jump_point first block.now.lines + 1) }
{
    match lines_within(first, block.lines.as_slice(), limit) {
        Some(point) => { if point < limit { Some(point + 1) } else { None } }
        None => None,
    }
}

/// Whether there are exactly so many points.
pub(crate) fn are_points(blocks: &[Block<u32>], count: usize) -> bool
    ensures count { result ≡ nat_eq (end_point 0 blocks.now) count }
    ensures few { result ≡ true → end_point 0 blocks.now < 2 ^ 64 }
{
    let mut point = 0usize;
    for block in blocks {
        match block_within(point, block, count) {
            Some(next) => point = next,
            None => return false,
        }
    }
    point == count
}
