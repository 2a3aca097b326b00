//! The webs of registers that are written more than once.
use crate::choice::forest::Forest;
use cfg_live::Reads;
use cfg_live::reads::{jump_reads, line_reads, register_of};
use cfg_live::uses::line_writes;
use flow::graph::{predecessors, predecessors_of};
use il_ast::Few;
use std::alloc::{AllocError, Global};
use vcode::{Block, Destination, Line, VFunc};

/// What a register holds where a block begins, which somebody reads.
#[derive(Clone, Copy)]
pub(crate) struct Begin {
    pub(crate) block: usize,
    pub(crate) register: u32,
    pub(crate) value: usize,
}

/// What a register holds at the end of a block that reads or writes it.
#[derive(Clone, Copy)]
struct End {
    block: usize,
    value: usize,

    /// what it holds where the block begins, if the block reads that
    begun: Option<usize>,

    /// the place of the end before this one of the same register
    before: usize,
}

/// What the register that was last asked of a block holds at its end.
#[derive(Clone, Copy)]
struct Asked {
    register: Option<u32>,
    value: usize,
}

/// How a register is used.
#[derive(Clone, Copy)]
pub(crate) struct Use {
    /// in how many places it is written, the begin of the function for a parameter
    writes: usize,

    /// the place of its last end
    last: usize,
}

impl Use {
    /// Whether it is written in one place at most.
    pub(crate) fn is_plain(self) -> bool {
        self.writes < 2
    }
}

/// The values of registers that are not written once, each with those that some reader may see in its place.
#[derive(Drop)]
pub(crate) struct Webs {
    pub(crate) uses: Vec<Use>,
    pub(crate) forest: Forest,

    /// what lines write, in the order of the text
    pub(crate) written: Vec<usize>,
    pub(crate) begins: Vec<Begin>,
    ends: Vec<End>,
}

/// The place of no end.
const NOWHERE: usize = usize::MAX;

/// Where a function has so many times more values at the begins of blocks than lines, it keeps its names.
const BEGINS_A_LINE: usize = 8;

impl Webs {
    pub(crate) fn new(alloc: Global, uses: Vec<Use>) -> Result<Webs, AllocError> {
        let forest = Forest::with_capacity(alloc, uses.len())?;
        let ends = Vec::with_capacity(alloc, uses.len())?;
        Ok(Webs {
            uses,
            forest,
            written: Vec::new(alloc),
            begins: Vec::new(alloc),
            ends,
        })
    }

    pub(crate) fn is_plain(&self, register: u32) -> bool {
        self.uses
            .get(register as usize)
            .map_or(true, |one| one.is_plain())
    }

    fn last_end(&self, register: u32) -> usize {
        self.uses
            .get(register as usize)
            .map_or(NOWHERE, |one| one.last)
    }

    /// The block reads or writes the register for the first time.
    fn push_end(
        &mut self,
        block: usize,
        register: u32,
        value: usize,
        begun: Option<usize>,
    ) -> Result<(), AllocError> {
        let end = self.ends.len();
        let before = self.last_end(register);
        if let Some(one) = self.uses.get_mut(register as usize) {
            one.last = end;
        }
        self.ends.push(End {
            block,
            value,
            begun,
            before,
        })?;
        Ok(())
    }

    /// Whether the block has read or written the register so far.
    fn is_in(&self, block: usize, register: u32) -> bool {
        match self.ends.get(self.last_end(register)) {
            Some(end) => end.block == block,
            None => false,
        }
    }

    fn write(&mut self, block: usize, register: u32) -> Result<(), AllocError> {
        let value = self.forest.add()?;
        self.written.push(value)?;
        let last = self.last_end(register);
        match self.ends.get_mut(last) {
            Some(end) if end.block == block => {
                end.value = value;
                Ok(())
            }
            _ => self.push_end(block, register, value, None),
        }
    }

    fn read(&mut self, block: usize, register: u32) -> Result<(), AllocError> {
        if self.is_plain(register) || self.is_in(block, register) {
            return Ok(());
        }
        let value = self.forest.add()?;
        self.push_end(block, register, value, Some(value))
    }

    fn read_all(&mut self, block: usize, reads: Reads) -> Result<(), AllocError> {
        for register in [reads.first, reads.second] {
            if let Some(register) = register {
                self.read(block, register)?;
            }
        }
        for arg in reads.args {
            if let Some(register) = register_of(&arg.value) {
                self.read(block, register)?;
            }
        }
        Ok(())
    }

    /// The values that the block writes, and those that it reads of what others wrote.
    fn walk(&mut self, number: usize, block: &Block<u32>) -> Result<(), AllocError> {
        for line in block.lines.as_slice() {
            self.read_all(number, line_reads(line))?;
            match line_writes(line) {
                Some(register) if !self.is_plain(register) => self.write(number, register)?,
                _ => {}
            }
        }
        self.read_all(number, jump_reads(&block.jump))
    }

    /// Notes what the register holds at the ends of the blocks that read or write it, and where they begin.
    fn note_ends(&mut self, asked: &mut [Asked], register: u32) -> Result<(), AllocError> {
        let mut next = self.last_end(register);
        for _ in 0..self.ends.len() {
            let Some(end) = self.ends.get(next).copied() else {
                return Ok(());
            };
            note(asked, end.block, register, end.value);
            if let Some(value) = end.begun {
                self.begins.push(Begin {
                    block: end.block,
                    register,
                    value,
                })?;
            }
            next = end.before;
        }
        Ok(())
    }

    /// What the register holds where the block ends.
    fn at_end(
        &mut self,
        asked: &mut [Asked],
        block: usize,
        register: u32,
    ) -> Result<usize, AllocError> {
        match asked.get(block) {
            Some(end) if end.register == Some(register) => return Ok(end.value),
            _ => {}
        }
        let value = self.forest.add()?;
        note(asked, block, register, value);
        self.begins.push(Begin {
            block,
            register,
            value,
        })?;
        Ok(value)
    }

    /// What a register holds where a block begins is what it holds at the ends of those that lead there.
    fn join_sources(
        &mut self,
        asked: &mut [Asked],
        begin: Begin,
        sources: &[usize],
    ) -> Result<(), AllocError> {
        for source in sources {
            let end = self.at_end(asked, *source, begin.register)?;
            self.forest.join(begin.value, end);
        }
        Ok(())
    }

    /// Finds which values of the register belong together; false where there are too many begins.
    fn join_register(
        &mut self,
        asked: &mut [Asked],
        sources: &[Few<usize>],
        register: u32,
        most: usize,
    ) -> Result<bool, AllocError> {
        let first = self.begins.len();
        self.note_ends(asked, register)?;
        for next in first..most {
            match self.begins.get(next).copied() {
                Some(begin) => {
                    self.join_sources(asked, begin, predecessors_of(sources, begin.block))?
                }
                None => return Ok(true),
            }
        }
        Ok(false)
    }

    /// Whether some web may need a register that the function doesn't have. The first value of a parameter may be read by no one, and keeps its name.
    pub(crate) fn may_need_more(&self, params: &[Destination<u32>]) -> bool {
        params.iter().any(|param| !self.is_plain(param.place))
            || self.forest.sets() != self.uses.iter().filter(|one| !one.is_plain()).count()
    }
}

fn note(asked: &mut [Asked], block: usize, register: u32, value: usize) {
    if let Some(end) = asked.get_mut(block) {
        *end = Asked {
            register: Some(register),
            value,
        };
    }
}

/// Finds which values belong together, register by register; false where there are too many begins.
fn join_all(
    webs: &mut Webs,
    asked: &mut [Asked],
    sources: &[Few<usize>],
    registers: u32,
) -> Result<bool, AllocError> {
    let most = webs.forest.len().saturating_mul(BEGINS_A_LINE);
    for register in 0..registers {
        if webs.last_end(register) != NOWHERE
            && !webs.join_register(asked, sources, register, most)?
        {
            return Ok(false);
        }
    }
    Ok(true)
}

/// Finds the values, and which belong together; false where they are too many.
pub(crate) fn find_webs(
    alloc: Global,
    webs: &mut Webs,
    function: &VFunc,
) -> Result<bool, AllocError> {
    let blocks = function.code.blocks.as_slice();
    for (number, block) in blocks.iter().enumerate() {
        webs.walk(number, block)?;
    }
    let sources = predecessors(alloc, blocks)?;
    let unasked = Asked {
        register: None,
        value: 0,
    };
    let mut asked = vec![in alloc; unasked; blocks.len()]?;
    join_all(
        webs,
        asked.as_mut_slice(),
        sources.as_slice(),
        function.registers,
    )
}

/// One more write of a register.
fn count(uses: &mut [Use], register: u32) {
    if let Some(one) = uses.get_mut(register as usize) {
        one.writes = one.writes.saturating_add(1);
    }
}

fn count_writes(uses: &mut [Use], lines: &[Line<u32>]) {
    for line in lines {
        if let Some(register) = line_writes(line) {
            count(uses, register);
        }
    }
}

/// The registers, with how often each is written.
pub(crate) fn count_uses(alloc: Global, function: &VFunc) -> Result<Vec<Use>, AllocError> {
    let unused = Use {
        writes: 0,
        last: NOWHERE,
    };
    let mut uses = vec![in alloc; unused; function.registers as usize]?;
    for param in function.code.params.as_slice() {
        count(uses.as_mut_slice(), param.place);
    }
    for block in function.code.blocks.as_slice() {
        count_writes(uses.as_mut_slice(), block.lines.as_slice());
    }
    Ok(uses)
}
