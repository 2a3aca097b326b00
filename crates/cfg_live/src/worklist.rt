//! The points whose sets may have to grow.
use bitset::BitSet;
use il_ast::Few;
use std::alloc::{AllocError, Global};

/// The points that wait to be visited, on a stack: those behind which a set grew.
#[derive(Drop)]
pub(crate) struct Worklist {
    befores: Vec<Few<usize>>,
    waiting: BitSet,
    stack: Vec<usize>,
}

fn add(waiting: &mut BitSet, stack: &mut Vec<usize>, point: usize) -> Result<(), AllocError> {
    if point < waiting.len() && !waiting.contains(point) {
        waiting.insert(point);
        stack.push(point)?;
    }
    Ok(())
}

impl Worklist {
    /// No point waits. `befores` has for each point those behind which it may come.
    pub(crate) fn new(alloc: Global, befores: Vec<Few<usize>>) -> Result<Self, AllocError> {
        let waiting = BitSet::new(alloc, befores.len())?;
        Ok(Worklist {
            befores,
            waiting,
            stack: Vec::new(alloc),
        })
    }

    /// The point waits no longer.
    pub(crate) fn strike(&mut self, point: usize) {
        if point < self.waiting.len() {
            self.waiting.remove(point);
        }
    }

    /// The points behind which this one may come wait on the stack, unless they wait already.
    pub(crate) fn add_before(&mut self, point: usize) -> Result<(), AllocError> {
        if let Some(befores) = self.befores.get(point) {
            for before in befores.as_slice() {
                add(&mut self.waiting, &mut self.stack, *before)?;
            }
        }
        Ok(())
    }

    /// Takes the latest point from the stack.
    pub(crate) fn take(&mut self) -> Option<usize> {
        self.stack.pop()
    }
}
