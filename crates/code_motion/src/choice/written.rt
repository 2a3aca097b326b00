//! What a loop writes, and what stands in front of it for that.
use crate::choice::reads::count_reads;
use cfg_live::uses::line_writes;
use std::alloc::{AllocError, Global};
use vcode::{Block, Line, Operand, Operation};

/// Of a register: the last loop that was looked at, how often that writes it, the register in front of it that holds the same, and the number of what more is known.
#[derive(Clone, Copy)]
struct Writes {
    nest: usize,
    count: u32,
    instead: Option<u32>,
    more: Option<usize>,
}

/// What more is known of a register that the loop writes once.
#[derive(Clone, Copy)]
struct More {
    sum: Option<Sum>,
    growth: Option<Growth>,
    product: Option<Product>,
}

/// What a register is the sum of, as longs or words by the operation.
#[derive(Clone, Copy)]
pub(crate) struct Sum {
    pub(crate) operation: Operation,
    pub(crate) left: Operand<u32>,
    pub(crate) right: Operand<u32>,
}

/// A register that a loop adds a number to, once.
#[derive(Clone, Copy)]
pub(crate) struct Growth {
    pub(crate) from: u32,
    pub(crate) by: u64,
    pub(crate) at: Spot,
}

/// A line: that of so many before it in its block.
#[derive(Clone, Copy)]
pub(crate) struct Spot {
    pub(crate) block: usize,
    pub(crate) line: usize,
}

/// So many times a register that grows, by an operation on it and a number.
#[derive(Clone, Copy)]
pub(crate) struct Product {
    pub(crate) index: u32,
    pub(crate) operation: Operation,
    pub(crate) number: u64,
    pub(crate) factor: u64,
}

const NOTHING: Writes = Writes {
    nest: 0,
    count: 0,
    instead: None,
    more: None,
};

const NO_MORE: More = More {
    sum: None,
    growth: None,
    product: None,
};

/// What loops write, register by register, for one loop after another.
#[derive(Drop)]
pub(crate) struct Written {
    writes: Vec<Writes>,
    more: Vec<More>,
    nest: usize,

    /// how often the function reads each register
    reads: Vec<u32>,
}

impl Written {
    /// Of so many registers, which these blocks read.
    ///
    /// # Errors
    ///
    /// Only where memory was refused.
    pub(crate) fn new(
        alloc: Global,
        registers: u32,
        blocks: &[Block<u32>],
    ) -> Result<Written, AllocError> {
        Ok(Written {
            writes: vec![in alloc; NOTHING; registers as usize]?,
            more: Vec::new(alloc),
            nest: 0,
            reads: count_reads(alloc, registers, blocks)?,
        })
    }

    /// How often the function reads the register.
    pub(crate) fn reads(&self, register: u32) -> u32 {
        self.reads.get(register as usize).copied().unwrap_or(0)
    }

    /// The next loop is looked at.
    pub(crate) fn begin(&mut self) {
        self.more.clear();
        self.nest = self.nest.saturating_add(1);
    }

    fn of(&self, register: u32) -> Writes {
        match self.writes.get(register as usize) {
            Some(writes) if writes.nest == self.nest => *writes,
            _ => Writes {
                nest: self.nest,
                ..NOTHING
            },
        }
    }

    fn set(&mut self, register: u32, writes: Writes) {
        if let Some(at) = self.writes.get_mut(register as usize) {
            *at = writes;
        }
    }

    fn more(&self, register: u32) -> More {
        match self.of(register).more {
            Some(number) => self.more.get(number).copied().unwrap_or(NO_MORE),
            None => NO_MORE,
        }
    }

    /// That more is known of the register, if the loop writes it once.
    fn set_more(&mut self, register: u32, more: More) -> Result<(), AllocError> {
        let mut writes = self.of(register);
        if writes.count != 1 {
            return Ok(());
        }
        if let Some(number) = writes.more {
            if let Some(at) = self.more.get_mut(number) {
                *at = more;
            }
            return Ok(());
        }
        writes.more = Some(self.more.len());
        self.set(register, writes);
        self.more.push(more)?;
        Ok(())
    }

    /// Counts what the lines write.
    pub(crate) fn count(&mut self, lines: &[Line<u32>]) {
        for line in lines {
            if let Some(register) = line_writes(line) {
                let mut writes = self.of(register);
                writes.count = writes.count.saturating_add(1);
                self.set(register, writes);
            }
        }
    }

    /// The register that the loop writes once holds what another does that is set in front of it.
    pub(crate) fn stand(&mut self, register: u32, instead: u32) {
        let mut writes = self.of(register);
        if writes.count == 1 {
            writes.instead = Some(instead);
            self.set(register, writes);
        }
    }

    /// The register that the loop writes once is this sum, of others.
    ///
    /// # Errors
    ///
    /// Only where memory was refused.
    pub(crate) fn add(&mut self, register: u32, sum: Sum) -> Result<(), AllocError> {
        if sum.left == Operand::At(register) || sum.right == Operand::At(register) {
            return Ok(());
        }
        let mut more = self.more(register);
        more.sum = Some(sum);
        self.set_more(register, more)
    }

    /// The register, which the loop writes once, takes the sum of a number and of another, or of itself.
    ///
    /// # Errors
    ///
    /// Only where memory was refused.
    pub(crate) fn grow(&mut self, register: u32, growth: Growth) -> Result<(), AllocError> {
        let mut more = self.more(register);
        more.growth = Some(growth);
        self.set_more(register, more)
    }

    /// What the loop adds to, where the register takes that.
    pub(crate) fn growth(&self, register: u32) -> Option<Growth> {
        self.more(register).growth
    }

    /// What the loop adds to the register itself.
    pub(crate) fn own_growth(&self, register: u32) -> Option<Growth> {
        match self.growth(register) {
            Some(growth) if growth.from == register => Some(growth),
            _ => None,
        }
    }

    /// The register that the loop writes once is this product.
    ///
    /// # Errors
    ///
    /// Only where memory was refused.
    pub(crate) fn multiply(&mut self, register: u32, product: Product) -> Result<(), AllocError> {
        let mut more = self.more(register);
        more.product = Some(product);
        self.set_more(register, more)
    }

    /// The product of a register that grows which the operand is.
    pub(crate) fn product(&self, operand: Operand<u32>) -> Option<Product> {
        match operand {
            Operand::At(register) => self.more(register).product,
            _ => None,
        }
    }

    /// What the register is the sum of.
    pub(crate) fn summands(&self, register: u32) -> Option<Sum> {
        self.more(register).sum
    }

    /// An operand that has the same value in front of the loop, if there is one.
    pub(crate) fn in_front(&self, operand: Operand<u32>) -> Option<Operand<u32>> {
        match operand {
            Operand::At(register) => {
                let writes = self.of(register);
                if writes.count == 0 {
                    return Some(operand);
                }
                Some(Operand::At(writes.instead?))
            }
            _ => Some(operand),
        }
    }
}
