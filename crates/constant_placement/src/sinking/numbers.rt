//! Numbers that a block sets registers to and doesn't read.
use crate::sinking::choice::SETS;
use crate::sinking::known::Known;
use cfg_live::Reads;
use cfg_live::reads::{jump_reads, line_reads};
use cfg_live::uses::line_writes;
use std::alloc::{AllocError, Global};
use vcode::{Block, Line, Operand};

fn is_read(reads: &Reads<'_>, register: u32) -> bool {
    reads.first == Some(register)
        || reads.second == Some(register)
        || reads
            .args
            .iter()
            .any(|arg| arg.value == Operand::At(register))
}

/// What is set in a block, or before it, and neither read nor written before its end.
pub(crate) fn unread(
    alloc: Global,
    before: &[Known],
    block: &Block<u32>,
) -> Result<Vec<Known>, AllocError> {
    let mut unread = Vec::new(alloc);
    unread.extend_from_slice(before)?;
    for line in block.lines.as_slice() {
        let (reads, written) = (line_reads(line), line_writes(line));
        unread.retain(|known: &Known| !is_read(&reads, known.register)
            && written != Some(known.register));
        if let Line::Set {
            to,
            value: Operand::Number(number),
        } = line
            && unread.len() < SETS
        {
            unread.push(Known {
                register: *to,
                number: *number,
            })?;
        }
    }
    let reads = jump_reads(&block.jump);
    unread.retain(|known: &Known| !is_read(&reads, known.register));
    Ok(unread)
}
