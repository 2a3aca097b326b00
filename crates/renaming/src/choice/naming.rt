//! Names for webs.
use crate::choice::webs::{Begin, Webs};
use crate::plan::{Plan, Renamed};
use cfg_live::uses::line_writes;
use il_ast::Seq;
use std::alloc::{AllocError, Global};
use std::mem;
use vcode::{Block, VFunc};

/// The names that were given so far.
#[derive(Drop)]
struct Naming {
    /// for each value that stands for a web
    names: Vec<Option<u32>>,

    /// whether some web has the register's own name
    taken: Vec<bool>,

    /// the owners of new registers
    owners: Vec<u32>,
}

impl Naming {
    fn take(&mut self, register: u32) -> bool {
        match self.taken.get_mut(register as usize) {
            Some(taken) if !*taken => {
                *taken = true;
                true
            }
            _ => false,
        }
    }

    /// A name that no web has.
    fn fresh(&mut self, register: u32) -> Result<u32, AllocError> {
        if self.take(register) {
            return Ok(register);
        }
        let name = self
            .taken
            .len()
            .saturating_add(self.owners.len())
            .min(u32::MAX as usize) as u32;
        self.owners.push(register)?;
        Ok(name)
    }

    /// The web of this value has the register's own name.
    fn keep(&mut self, webs: &mut Webs, value: usize, register: u32) {
        let root = webs.forest.root(value);
        let _ = self.take(register);
        if let Some(at) = self.names.get_mut(root) {
            *at = Some(register);
        }
    }

    /// The name of the web of this value of the register.
    fn name(&mut self, webs: &mut Webs, value: usize, register: u32) -> Result<u32, AllocError> {
        let root = webs.forest.root(value);
        if let Some(Some(name)) = self.names.get(root) {
            return Ok(*name);
        }
        let name = self.fresh(register)?;
        if let Some(at) = self.names.get_mut(root) {
            *at = Some(name);
        }
        Ok(name)
    }
}

/// What registers hold where the function begins keeps their names.
fn keep_first(naming: &mut Naming, webs: &mut Webs, begins: &[Begin]) {
    for begin in begins {
        if begin.block == 0 {
            naming.keep(webs, begin.value, begin.register);
        }
    }
}

/// For each line of a block the name of what it writes. The values of lines stand in their order from `next` on.
fn written_names(
    alloc: Global,
    naming: &mut Naming,
    webs: &mut Webs,
    next: &mut usize,
    block: &Block<u32>,
) -> Result<Seq<u32>, AllocError> {
    let mut names = Vec::with_capacity(alloc, block.lines.len())?;
    for line in block.lines.as_slice() {
        names.push(match line_writes(line) {
            Some(register) if !webs.is_plain(register) => {
                let value = webs.written.get(*next).copied().unwrap_or(0);
                *next = next.saturating_add(1);
                naming.name(webs, value, register)?
            }
            Some(register) => register,
            None => 0,
        })?;
    }
    Ok(Seq::from_vec(names))
}

fn all_written(
    alloc: Global,
    naming: &mut Naming,
    webs: &mut Webs,
    blocks: &[Block<u32>],
) -> Result<Vec<Seq<u32>>, AllocError> {
    let mut next = 0;
    let mut written = Vec::with_capacity(alloc, blocks.len())?;
    for block in blocks {
        written.push(written_names(alloc, naming, webs, &mut next, block)?)?;
    }
    Ok(written)
}

/// For each block the names with which it begins.
fn all_starts(
    alloc: Global,
    naming: &mut Naming,
    webs: &mut Webs,
    begins: &[Begin],
    blocks: usize,
) -> Result<Vec<Seq<Renamed>>, AllocError> {
    let mut starts = Vec::with_capacity(alloc, blocks)?;
    for _ in 0..blocks {
        starts.push(Seq::new(alloc))?;
    }
    for begin in begins {
        let name = naming.name(webs, begin.value, begin.register)?;
        if let Some(start) = starts.get_mut(begin.block) {
            start.push(Renamed {
                register: begin.register,
                name,
            })?;
        }
    }
    Ok(starts)
}

fn new_naming(alloc: Global, webs: &Webs, function: &VFunc) -> Result<Naming, AllocError> {
    let mut naming = Naming {
        names: vec![in alloc; None; webs.forest.len()]?,
        taken: vec![in alloc; false; webs.uses.len()]?,
        owners: Vec::new(alloc),
    };
    for param in function.code.params.as_slice() {
        // A parameter's own name is its first value's, whether or not that is read.
        let _ = naming.take(param.place);
    }
    Ok(naming)
}

/// The plan that names these webs.
pub(crate) fn named(alloc: Global, webs: Webs, function: &VFunc) -> Result<Plan, AllocError> {
    let mut webs = webs;
    let blocks = function.code.blocks.as_slice();
    let mut naming = new_naming(alloc, &webs, function)?;
    let begins = mem::replace(&mut webs.begins, Vec::new(alloc));
    keep_first(&mut naming, &mut webs, begins.as_slice());
    let written = all_written(alloc, &mut naming, &mut webs, blocks)?;
    let starts = all_starts(
        alloc,
        &mut naming,
        &mut webs,
        begins.as_slice(),
        blocks.len(),
    )?;
    Ok(Plan {
        plain: webs.uses.iter().map(|one| one.is_plain()).collect(alloc)?,
        owners: naming.owners,
        starts,
        written,
    })
}
