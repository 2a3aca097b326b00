//! The points of virtual code: lines but for ticks, and jumps, from 0 in the order of the text.
ghost use Rattle.std.specs.Prelude.{◌≡◌, ◌<◌, ◌^◌};
ghost use Rattle.cfg_live.specs.Numbering.{next_point, jump_point};

use vcode::Line;

/// The point behind a line.
pub fn next_point(point: usize, line: &Line<u32>) -> usize
    requires { next_point point line.now < 2 ^ 64 }
    ensures { result ≡ next_point point line.now }
{
    match line {
        Line::Tick { .. } => point,
        _ => point + 1,
    }
}

/// The point of the jump behind these lines, the first of which is at `first`.
pub fn jump_point(first: usize, lines: &[Line<u32>]) -> usize
    requires { jump_point first lines.now < 2 ^ 64 }
    ensures { result ≡ jump_point first lines.now }
{
    let mut point = first;
    for line in lines {
        point = next_point(point, line);
    }
    point
}
