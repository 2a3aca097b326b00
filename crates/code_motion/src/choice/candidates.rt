//! Whether there may be anything to do in front of loops: a look at the lines, before the loops are found.
use cfg_live::LowRegisters;
use cfg_live::uses::line_writes;
use flow::graph::successor;
use flow::loops::is_back;
use rv_isa::RegOp;
use vcode::{Block, Line, Operand, Operation};

/// A jump back in the text.
#[derive(Clone, Copy)]
struct Back {
    head: usize,
    last: usize,
}

/// The jumps back of a function.
#[derive(Clone, Copy)]
enum Backs {
    Nowhere,
    Once(Back),
    Often,
}

impl Backs {
    /// With the jump of the block `last` to `to`.
    fn with(self, last: usize, to: Option<usize>) -> Backs {
        match to {
            Some(head) if is_back(last, to) => match self {
                Backs::Nowhere => Backs::Once(Back { head, last }),
                _ => Backs::Often,
            },
            _ => self,
        }
    }
}

fn jumps_back(blocks: &[Block<u32>]) -> Backs {
    let mut backs = Backs::Nowhere;
    for (number, block) in blocks.iter().enumerate() {
        backs = backs
            .with(number, successor(&block.jump, 0))
            .with(number, successor(&block.jump, 1));
    }
    backs
}

/// Which registers the block writes, of those with low numbers.
fn written_in(blocks: &[Block<u32>], block: usize) -> LowRegisters {
    let mut written = LowRegisters::new();
    if let Some(block) = blocks.get(block) {
        for line in block.lines.as_slice() {
            if let Some(register) = line_writes(line) {
                written = written.with(register);
            }
        }
    }
    written
}

fn is_outside(written: LowRegisters, operand: &Operand<u32>) -> bool {
    match operand {
        Operand::At(register) => !written.contains(*register),
        _ => false,
    }
}

/// Whether a line operates on a register that isn't among these.
fn reads_outside(written: LowRegisters, line: &Line<u32>) -> bool {
    match line {
        Line::Operate {
            operation: Operation::Compare(_, _),
            ..
        } => false,
        Line::Operate { left, right, .. } => {
            is_outside(written, left) || is_outside(written, right)
        }
        _ => false,
    }
}

/// Whether a line multiplies by a number or shifts back: sums and extensions for which something is planned have such a part.
fn is_part(line: &Line<u32>) -> bool {
    matches!(
        line,
        Line::Operate {
            operation: Operation::Reg(RegOp::Sll | RegOp::Srl | RegOp::Mul),
            right: Operand::Number(_),
            ..
        }
    )
}

/// Whether a line of the only loop operates on a register that neither its first nor its last block writes.
fn loop_reads_outside(blocks: &[Block<u32>], back: Back) -> bool {
    let written = written_in(blocks, back.head).joined(written_in(blocks, back.last));
    let mut inside = blocks
        .iter()
        .take(back.last.saturating_add(1))
        .skip(back.head);
    inside.any(|block| {
        let mut lines = block.lines.as_slice().iter();
        lines.any(|line| reads_outside(written, line))
    })
}

/// Whether something may be planned for these blocks.
pub(crate) fn may_plan(blocks: &[Block<u32>]) -> bool {
    if blocks.iter().any(|block| block.lines.as_slice().iter().any(|line| is_part(line))) {
        return true;
    }
    match jumps_back(blocks) {
        Backs::Nowhere => false,
        Backs::Once(back) => loop_reads_outside(blocks, back),
        Backs::Often => true,
    }
}
