//! What is computed in blocks besides what they compute: any such plan keeps the code, as far as its lines fit.
use vcode::{Line, Operand, Operation};

/// A computation at the end of a block, into a register that the function doesn't have.
#[derive(Clone, Copy)]
pub struct Computation {
    pub block: usize,
    pub register: u32,
    pub operation: Operation,
    pub left: Operand<u32>,
    pub right: Operand<u32>,
}

impl Computation {
    /// The line that does it.
    pub fn line(&self) -> Line<u32> {
        Line::Operate {
            to: self.register,
            operation: self.operation,
            left: self.left,
            right: self.right,
        }
    }
}

/// What is computed in a block besides its own lines.
#[derive(Drop)]
pub struct BlockPlan {
    /// in front of each line, or nothing at all
    pub in_front: Vec<Option<Computation>>,

    /// behind the lines, in an order in which each stands behind those that it reads
    pub behind: Vec<Computation>,
}

/// Which computations are done in the blocks, and how many registers there are with theirs.
#[derive(Drop)]
pub struct Plan {
    pub blocks: Vec<BlockPlan>,
    pub registers: u32,
}
