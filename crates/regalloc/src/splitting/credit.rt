//! How many moves the ticks of a block pay for, and where.
use crate::intervals::text::{Stretch, Text};
use crate::lists::set;
use std::alloc::{AllocError, Global};
use vcode::cost::is_immediate;
use vcode::{Block, Jump, Line, Operand, Operation};

/// What a move costs wherever its places are.
const MOVE: u64 = 6;

/// What a unit of weight pays for.
const UNIT: u64 = 32;

/// What is left of the ticks of all blocks: the moves that are paid for from each point on, and not before it.
#[derive(Drop)]
pub(crate) struct Credit {
    moves: Vec<u64>,

    /// a point before each point of the same block, such that all between them pay for nothing any more
    before: Vec<Option<usize>>,
}

/// At most what reading the operand costs.
fn operand_cost(operand: &Operand<u32>) -> u64 {
    match operand {
        Operand::At(_) => 3,
        Operand::Number(number) => { if is_immediate(*number) { 1 } else { 9 } }
        Operand::Name(_) => 2,
    }
}

/// At most what reading both operands costs.
fn operands_cost(left: &Operand<u32>, right: &Operand<u32>) -> u64 {
    operand_cost(left).saturating_add(operand_cost(right))
}

/// At most what the line costs with any places.
fn line_cost(line: &Line<u32>) -> u64 {
    match line {
        Line::Tick { .. } => 0,
        Line::Set { value, .. } => operand_cost(value).saturating_add(3),
        Line::Operate {
            operation,
            left,
            right,
            ..
        } => {
            let besides = match operation {
                Operation::Reg(_) | Operation::RegW(_) => 4,
                Operation::Compare(_, _) => 9,
            };
            operands_cost(left, right).saturating_add(besides)
        }
        Line::Load { at, .. } => operand_cost(&at.base).saturating_add(4),
        Line::Store { value, at, .. } => operands_cost(value, &at.base).saturating_add(1),
        Line::Alloc { .. } => 6,
        Line::Blit { from, to, count } => {
            operands_cost(from, to).saturating_add(count.saturating_add(8))
        }
        Line::Call { args, .. } => (args.len() as u64).saturating_mul(24).saturating_add(20),
    }
}

/// At most what the jump costs with any places.
fn jump_cost(jump: &Jump<u32>) -> u64 {
    match jump {
        Jump::Goto(_) | Jump::Halt | Jump::Return(None) => 2,
        Jump::Branch { on, .. } => operands_cost(&on.left, &on.right).saturating_add(7),
        Jump::Return(Some(returned)) => operand_cost(&returned.value).saturating_add(3),
    }
}

/// The credit that is left behind each point.
fn spend(alloc: Global, blocks: &[Block<u32>]) -> Result<Vec<u64>, AllocError> {
    let mut left = Vec::new(alloc);
    for block in blocks {
        let mut credit = 0u64;
        for line in block.lines.as_slice() {
            if let Line::Tick { weight, .. } = line {
                credit = credit.saturating_add(UNIT.saturating_mul(u64::from(*weight)));
            } else {
                credit = credit.saturating_sub(line_cost(line));
                left.push(credit)?;
            }
        }
        left.push(credit.saturating_sub(jump_cost(&block.jump)))?;
    }
    Ok(left)
}

/// Lowers what is left behind each point of a block to the least of it and of all points behind, since a move before a point is paid for at all of those.
fn lower(left: &mut [u64], stretch: Stretch) {
    let mut least = u64::MAX;
    for back in 0..stretch.jump.saturating_sub(stretch.first).saturating_add(1) {
        if let Some(at) = left.get_mut(stretch.jump.saturating_sub(back)) {
            least = least.min(*at);
            *at = least;
        }
    }
}

/// Counts for each point of a block the moves that what is left behind it pays for, but not what is left behind the point before it.
fn count_moves(credit: &mut Credit, stretch: Stretch) {
    let mut paid = 0u64;
    for point in stretch.first..stretch.jump.saturating_add(1) {
        if let Some(moves) = credit.moves.get_mut(point) {
            let all = *moves / MOVE;
            *moves = all.saturating_sub(paid);
            paid = all;
        }
        if stretch.first < point {
            let before = point.saturating_sub(1);
            set(credit.before.as_mut_slice(), point, Some(before));
        }
    }
}

/// The moves that the ticks of each block pay for besides its lines and its jump.
pub(crate) fn credit_of(
    alloc: Global,
    blocks: &[Block<u32>],
    text: &Text,
) -> Result<Credit, AllocError> {
    let moves = spend(alloc, blocks)?;
    let before = vec![in alloc; None; moves.len()]?;
    let mut credit = Credit { moves, before };
    for stretch in text.stretches.iter() {
        lower(credit.moves.as_mut_slice(), *stretch);
        count_moves(&mut credit, *stretch);
    }
    Ok(credit)
}

impl Credit {
    /// Nothing is paid for.
    pub(crate) fn none(alloc: Global) -> Credit {
        Credit {
            moves: Vec::new(alloc),
            before: Vec::new(alloc),
        }
    }

    /// Whether nothing was found yet that pays.
    pub(crate) fn is_none(&self) -> bool {
        self.moves.is_empty()
    }

    /// A point before this one that may pay for something; the way there is shortened.
    fn step(&mut self, point: usize) -> Option<usize> {
        let before = self.before.get(point).copied().flatten()?;
        let over = self.before.get(before).copied().flatten();
        if self.moves.get(before) == Some(&0) && over.is_some() {
            set(self.before.as_mut_slice(), point, over);
        }
        Some(before)
    }

    /// Pays for a move before a point; false where nothing is left for it.
    pub(crate) fn pay(&mut self, point: usize) -> bool {
        let mut at = point;
        for _ in 0..self.moves.len() {
            if let Some(moves) = self.moves.get_mut(at)
                && 0 < *moves
            {
                *moves = moves.saturating_sub(1);
                return true;
            }
            let Some(before) = self.step(at) else {
                return false;
            };
            at = before;
        }
        false
    }
}
