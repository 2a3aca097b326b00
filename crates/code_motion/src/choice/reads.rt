//! How often a function reads each register.
use cfg_live::Reads;
use cfg_live::reads::{jump_reads, line_reads, register_of};
use std::alloc::{AllocError, Global};
use vcode::Block;

fn count(reads: &mut [u32], register: Option<u32>) {
    if let Some(register) = register {
        if let Some(read) = reads.get_mut(register as usize) {
            *read = read.saturating_add(1);
        }
    }
}

fn count_all(reads: &mut [u32], more: &Reads<'_>) {
    count(reads, more.first);
    count(reads, more.second);
    for arg in more.args {
        count(reads, register_of(&arg.value));
    }
}

/// How often the blocks read each register, by its number.
///
/// # Errors
///
/// Only where memory was refused.
pub(crate) fn count_reads(
    alloc: Global,
    registers: u32,
    blocks: &[Block<u32>],
) -> Result<Vec<u32>, AllocError> {
    let mut reads = vec![in alloc; 0u32; registers as usize]?;
    for block in blocks {
        for line in block.lines.as_slice() {
            count_all(reads.as_mut_slice(), &line_reads(line));
        }
        count_all(reads.as_mut_slice(), &jump_reads(&block.jump));
    }
    Ok(reads)
}
