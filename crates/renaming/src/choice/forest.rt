//! Sets of values that belong together, each with one of them for the whole (disjoint sets, Tarjan 1975).
use std::alloc::{AllocError, Global};

/// Values by their numbers, each with one that stands nearer to the one for its set, which stands for itself.
#[derive(Drop)]
pub(crate) struct Forest {
    above: Vec<usize>,
    sets: usize,
}

impl Forest {
    /// No values yet, with room for so many.
    pub(crate) fn with_capacity(alloc: Global, values: usize) -> Result<Forest, AllocError> {
        let above = Vec::with_capacity(alloc, values)?;
        Ok(Forest { above, sets: 0 })
    }

    pub(crate) fn len(&self) -> usize {
        self.above.len()
    }

    /// How many sets there are.
    pub(crate) fn sets(&self) -> usize {
        self.sets
    }

    /// One value more, in a set of its own.
    pub(crate) fn add(&mut self) -> Result<usize, AllocError> {
        let value = self.above.len();
        self.above.push(value)?;
        self.sets = self.sets.saturating_add(1);
        Ok(value)
    }

    fn above(&self, value: usize) -> usize {
        match self.above.get(value) {
            Some(above) => *above,
            None => value,
        }
    }

    /// The one for the value's set. The way to it gets half as long.
    pub(crate) fn root(&mut self, value: usize) -> usize {
        let mut at = value;
        for _ in 0..self.above.len() {
            let next = self.above(at);
            if next == at {
                return at;
            }
            let further = self.above(next);
            if let Some(above) = self.above.get_mut(at) {
                *above = further;
            }
            at = further;
        }
        at
    }

    /// The sets of both are one from now on, with the lower one for it.
    pub(crate) fn join(&mut self, left: usize, right: usize) {
        let left = self.root(left);
        let right = self.root(right);
        if left == right {
            return;
        }
        self.sets = self.sets.saturating_sub(1);
        if let Some(above) = self.above.get_mut(left.max(right)) {
            *above = left.min(right);
        }
    }
}
