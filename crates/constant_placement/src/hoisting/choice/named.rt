//! How often a function names its registers.
use cfg_live::Reads;
use cfg_live::reads::{jump_reads, line_reads, register_of};
use cfg_live::uses::line_writes;
use flow::depths::frequency;
use std::alloc::{AllocError, Global};
use vcode::{Block, VFunc};

/// The names of registers that were counted so far.
#[derive(Drop)]
struct Names {
    /// of each register, how often it was named
    counts: Vec<i64>,

    /// how often the block is run
    times: i64,
}

impl Names {
    fn count(&mut self, register: u32) {
        if let Some(count) = self.counts.get_mut(register as usize) {
            *count = count.saturating_add(self.times);
        }
    }

    fn count_some(&mut self, register: Option<u32>) {
        if let Some(register) = register {
            self.count(register);
        }
    }

    fn count_reads(&mut self, reads: Reads<'_>) {
        self.count_some(reads.first);
        self.count_some(reads.second);
        for arg in reads.args {
            self.count_some(register_of(&arg.value));
        }
    }

    fn count_block(&mut self, block: &Block<u32>) {
        for line in block.lines.as_slice() {
            self.count_some(line_writes(line));
            self.count_reads(line_reads(line));
        }
        self.count_reads(jump_reads(&block.jump));
    }
}

/// Of each register, how often the function names it, where each loop goes round as often as is guessed.
pub(crate) fn how_often_named(
    alloc: Global,
    function: &VFunc,
    depths: &[u32],
) -> Result<Vec<i64>, AllocError> {
    let mut names = Names {
        counts: vec![in alloc; 0i64; function.registers as usize]?,
        times: 1,
    };
    for param in function.code.params.as_slice() {
        names.count(param.place);
    }
    for (number, block) in function.code.blocks.as_slice().iter().enumerate() {
        names.times = frequency(depths.get(number).copied().unwrap_or(0)) as i64;
        names.count_block(block);
    }
    Ok(names.counts)
}

/// The first registers of the function that it names nowhere, at most `most`.
pub(crate) fn free_registers(
    alloc: Global,
    registers: u32,
    named: &[i64],
    most: usize,
) -> Result<Vec<u32>, AllocError> {
    let free = (0..registers).filter(|register| named.get(*register as usize) == Some(&0));
    free.take(most).collect(alloc)
}
