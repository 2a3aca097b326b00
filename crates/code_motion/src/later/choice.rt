//! Which sums are put off, and how far: a guess.
use crate::later::waiting::{lets_wait, names_no, operation_of};
use rv_isa::{RegOp, RegWOp};
use vcode::{Block, Line, Operand, Operation};

/// How many lines behind a sum are looked at.
const WINDOW: usize = 48;

/// The register of which a line gives another the sum with a number, or the difference.
fn summand(line: &Line<u32>) -> Option<u32> {
    match line {
        Line::Operate {
            operation: Operation::Reg(RegOp::Add | RegOp::Sub)
            | Operation::RegW(RegWOp::Addw | RegWOp::Subw),
            left: Operand::At(from),
            right: Operand::Number(_),
            ..
        } => Some(*from),
        _ => None,
    }
}

/// Behind how many lines of the block the sum is to stand that is the one with this number, if it is put off: behind the last that reads what it is the sum of.
pub(crate) fn place_of(lines: &[Line<u32>], number: usize) -> Option<usize> {
    let from = summand(lines.get(number)?)?;
    let waiting = operation_of(lines.get(number)?)?;
    let first = number.saturating_add(1);
    let mut place = None;
    for (at, line) in lines.iter().enumerate().skip(first).take(WINDOW) {
        if !lets_wait(&waiting, line) {
            break;
        }
        if !names_no(from, line) {
            place = Some(at.saturating_add(1));
        }
    }
    place
}

/// Whether any sum of the blocks is put off.
pub(crate) fn is_any_put_off(blocks: &[Block<u32>]) -> bool {
    blocks.iter().any(|block| {
        let lines = block.lines.as_slice();
        (0..lines.len()).any(|number| place_of(lines, number).is_some())
    })
}
