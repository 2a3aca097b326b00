//! Whether copies are read behind them: a look at the lines, before they are made anew.
use cfg_live::LowRegisters;
use vcode::{Block, Jump, Line, Operand};

/// The registers that were copied so far in a block, by their numbers modulo 128.
#[derive(Clone, Copy)]
struct Sources {
    copied: LowRegisters,
}

impl Sources {
    /// Whether a line may read a source.
    fn are_read(self, line: &Line<u32>) -> bool {
        match line {
            Line::Tick { .. } => false,
            Line::Set { value, .. } => match value {
                Operand::At(register) => self.copied.contains(*register % 128),
                _ => false,
            },
            _ => !self.copied.is_empty(),
        }
    }

    /// Whether the jump may.
    fn are_tested(self, jump: &Jump<u32>) -> bool {
        match jump {
            Jump::Goto(_) | Jump::Halt => false,
            _ => !self.copied.is_empty(),
        }
    }

    /// With what a line copies.
    fn behind(self, line: &Line<u32>) -> Sources {
        match line {
            Line::Set {
                value: Operand::At(from),
                ..
            } => Sources {
                copied: self.copied.with(*from % 128),
            },
            _ => self,
        }
    }
}

fn block_reads_sources(block: &Block<u32>) -> bool {
    let mut sources = Sources {
        copied: LowRegisters::new(),
    };
    for line in block.lines.as_slice() {
        if sources.are_read(line) {
            return true;
        }
        sources = sources.behind(line);
    }
    sources.are_tested(&block.jump)
}

/// Whether some line or jump behind a copy, in its block, may read what that is a copy of.
pub(crate) fn read_sources(blocks: &[Block<u32>]) -> bool {
    blocks.iter().any(|block| block_reads_sources(block))
}
