//! What the lines of a block wait for.
use crate::choice::WINDOW;
use crate::choice::latencies::times_of;
use crate::choice::reads::{jump_reads, line_reads};
use crate::independent::{is_independent, written};
use std::alloc::{AllocError, Global};
use vcode::{Block, Line, Location};

/// A line that isn't a tick, beside those in front of it, of which bit i stands for the one i + 1 lines before it.
#[derive(Clone, Copy)]
pub(crate) struct Facts {
    /// which line of the block it is
    pub line: usize,

    /// the cycles to its last instruction, and from there to its result
    pub before: u32,
    pub latency: u32,

    /// those that have to stay in front of it
    pub behind: u32,

    /// those whose result it reads
    pub waits: u32,

    /// whether the jump reads its result
    pub is_jumped_on: bool,

    /// how many cycles there are at least from its begin to the end of all that waits for it
    pub height: u32,
}

/// Those of these lines, the nearest last, that have to stay in front of a line, and those whose result it reads.
fn masks(lines: &[Line<Location>], before: &[Facts], line: &Line<Location>) -> (u32, u32) {
    let mut behind = 0u32;
    let mut waits = 0u32;
    let mut bit = 1u32;
    for other in before.iter().rev() {
        if let Some(other) = lines.get(other.line)
            && !is_independent(other, line)
        {
            behind |= bit;
            if written(other).is_some_and(|place| line_reads(line, place)) {
                waits |= bit;
            }
        }
        bit = bit.wrapping_mul(2);
        if bit == 1u32 << WINDOW {
            break;
        }
    }
    (behind, waits)
}

/// The facts of all lines but the ticks, in their order.
pub(crate) fn facts_of(alloc: Global, block: &Block<Location>) -> Result<Vec<Facts>, AllocError> {
    let lines = block.lines.as_slice();
    let mut facts: Vec<Facts> = Vec::new(alloc);
    for (number, line) in lines.iter().enumerate() {
        if let Line::Tick { .. } = line {
            continue;
        }
        let takes = times_of(line);
        let (behind, waits) = masks(lines, facts.as_slice(), line);
        facts.push(Facts {
            line: number,
            before: takes.before,
            latency: takes.latency,
            behind,
            waits,
            is_jumped_on: written(line).is_some_and(|place| jump_reads(&block.jump, place)),
            height: 0,
        })?;
    }
    Ok(facts)
}
