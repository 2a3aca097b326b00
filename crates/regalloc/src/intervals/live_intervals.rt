//! Where in the text of a function its registers have values that are wanted.
use crate::intervals::positions::{Range, right_after, right_before};
use crate::intervals::starts::Starts;
use crate::intervals::text::{Stretch, Text};
use cfg_live::Reads;
use cfg_live::reads::{jump_reads, line_reads, register_of};
use cfg_live::uses::line_writes;
use smallvec::SmallVec;
use std::alloc::{AllocError, Global};
use vcode::{Block, Code, Line};

/// The ranges in which a register is live, or was just written, in the order of the text, and apart; one range of all positions where it is taken to have a value
/// throughout.
#[derive(Drop)]
pub(crate) struct LiveInterval {
    pub(crate) ranges: SmallVec<Range, 2, Global>,
}

/// The ranges of a register, in the order of the text.
pub(crate) fn ranges_of(intervals: &[LiveInterval], register: u32) -> &[Range] {
    let interval = intervals.get(register as usize);
    interval.map_or(&[], |interval| interval.ranges.as_slice())
}

/// The register is live from there on: a range begins there, or the last one goes on up to there, if the position is in it or opens the block right behind it.
fn begin_at(intervals: &mut [LiveInterval], register: u32, at: usize) -> Result<(), AllocError> {
    let Some(interval) = intervals.get_mut(register as usize) else {
        return Ok(());
    };
    match interval.ranges.as_mut_slice().last_mut() {
        Some(last) if at <= last.end => {}
        Some(last) if at % 2 == 0 && at == last.end.saturating_add(1) => last.end = at,
        _ => interval.ranges.push(Range { start: at, end: at })?,
    }
    Ok(())
}

/// The register is live up to there: its last range goes on.
fn reach_at(intervals: &mut [LiveInterval], register: u32, at: usize) {
    if let Some(interval) = intervals.get_mut(register as usize)
        && let Some(last) = interval.ranges.as_mut_slice().last_mut()
    {
        last.end = last.end.max(at);
    }
}

/// What is read is live up to there.
fn reach_reads(intervals: &mut [LiveInterval], reads: Reads, at: usize) {
    for register in [reads.first, reads.second] {
        if let Some(register) = register {
            reach_at(intervals, register, at);
        }
    }
    for arg in reads.args {
        if let Some(register) = register_of(&arg.value) {
            reach_at(intervals, register, at);
        }
    }
}

/// Goes through a block. What its lines read is live up to them, and what they write from there on; what is live at its jump is so up to the end: what it reads, and
/// what is live where it leads to.
fn use_block(
    intervals: &mut [LiveInterval],
    block: &Block<u32>,
    starts: &Starts,
    number: usize,
    stretch: Stretch,
) -> Result<(), AllocError> {
    for start in starts.of(number) {
        begin_at(intervals, start.register, right_before(stretch.first))?;
    }
    let mut point = stretch.first;
    for line in block.lines.as_slice() {
        if !matches!(line, Line::Tick { .. }) {
            reach_reads(intervals, line_reads(line), right_before(point));
            if let Some(register) = line_writes(line) {
                begin_at(intervals, register, right_after(point))?;
            }
            point = point.saturating_add(1);
        }
    }
    let end = right_after(stretch.jump);
    reach_reads(intervals, jump_reads(&block.jump), end);
    for to in stretch.targets {
        if let Some(to) = to {
            for start in starts.of(to) {
                reach_at(intervals, start.register, end);
            }
        }
    }
    Ok(())
}

/// The live interval of each of so many registers; those of parameters start with the code, and those of registers that have values throughout have all positions.
pub(crate) fn live_intervals(
    alloc: Global,
    registers: u32,
    code: &Code<u32>,
    starts: &Starts,
    text: &Text,
) -> Result<Vec<LiveInterval>, AllocError> {
    let end = right_after(text.points().saturating_sub(1));
    let mut intervals = Vec::with_capacity(alloc, registers as usize)?;
    for register in 0..registers {
        intervals.push(LiveInterval {
            ranges: SmallVec::new(alloc),
        })?;
        if starts.is_throughout(register) {
            begin_at(intervals.as_mut_slice(), register, 0)?;
            reach_at(intervals.as_mut_slice(), register, end);
        }
    }
    for param in code.params.as_slice() {
        begin_at(intervals.as_mut_slice(), param.place, right_before(0))?;
    }
    for (number, block) in code.blocks.as_slice().iter().enumerate() {
        if let Some(stretch) = text.stretch(number) {
            use_block(intervals.as_mut_slice(), block, starts, number, stretch)?;
        }
    }
    Ok(intervals)
}
