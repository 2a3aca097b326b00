//! Addresses that are sums of a register and of what another register and a number give. The sum of the two registers is set in front of them; `value_numbering` adds the number last then, and so it becomes the offset of the
//! loads and stores there.
use crate::choice::choose::{Plans, plan_in_front};
use crate::plan::Computation;
use cfg_live::uses::line_writes;
use rv_isa::RegOp;
use std::alloc::{AllocError, Global};
use vcode::cost::is_immediate;
use vcode::{Block, Line, Operand, Operation};

/// How many lines in front of a sum, and behind it, are looked at.
const WINDOW: usize = 8;

/// A register, and a number that is added to it.
#[derive(Clone, Copy)]
struct Offset {
    base: u32,
    number: u64,
}

/// The sum of another register and a number that a line gives the register.
fn offset_in(line: &Line<u32>, register: u32) -> Option<Offset> {
    match line {
        Line::Operate {
            to,
            operation: Operation::Reg(RegOp::Add),
            left: Operand::At(base),
            right: Operand::Number(number),
        } if *to == register && *base != register && is_immediate(*number) => Some(Offset {
            base: *base,
            number: *number,
        }),
        _ => None,
    }
}

/// What is known of a register behind a line.
fn behind(known: Option<Offset>, line: &Line<u32>, register: u32) -> Option<Offset> {
    match line_writes(line) {
        Some(written) => {
            if written == register {
                return offset_in(line, register);
            }
            match known {
                Some(offset) if offset.base == written => None,
                _ => known,
            }
        }
        None => known,
    }
}

/// The sum of another register and a number that the register is in front of the line with this number.
fn offset_of(lines: &[Line<u32>], number: usize, register: u32) -> Option<Offset> {
    let mut known = None;
    for line in lines
        .iter()
        .take(number)
        .skip(number.saturating_sub(WINDOW))
    {
        known = behind(known, line, register);
    }
    known
}

/// Whether the line reads the register as an address which, with the number, is still one of an instruction.
fn takes(line: &Line<u32>, register: u32, number: u64) -> bool {
    match line {
        Line::Load { at, .. } | Line::Store { at, .. } => {
            let offset = i64::from(at.offset.value).cast_unsigned();
            at.base == Operand::At(register) && is_immediate(offset.wrapping_add(number))
        }
        _ => false,
    }
}

/// How many of the lines from this one on do so, until the register is written.
fn count_takes(lines: &[Line<u32>], from: usize, register: u32, number: u64) -> u32 {
    let mut count = 0u32;
    for line in lines.iter().skip(from).take(WINDOW) {
        if takes(line, register, number) {
            count = count.saturating_add(1);
        }
        if line_writes(line) == Some(register) {
            return count;
        }
    }
    count
}

/// How often a register is read.
fn reads_of(reads: &[u32], register: u32) -> u32 {
    reads.get(register as usize).copied().unwrap_or(0)
}

/// What `register` is the sum of together with a number, where nothing else reads it, and `to` is read as an address alone.
fn base_of(
    lines: &[Line<u32>],
    reads: &[u32],
    number: usize,
    to: u32,
    register: u32,
) -> Option<u32> {
    let offset = offset_of(lines, number, register)?;
    let taken = count_takes(lines, number.saturating_add(1), to, offset.number);
    if reads_of(reads, register) == 1 && taken != 0 && taken == reads_of(reads, to) {
        Some(offset.base)
    } else {
        None
    }
}

/// The two registers whose sum is wanted in front of a line.
fn summands_at(lines: &[Line<u32>], reads: &[u32], number: usize) -> Option<(u32, u32)> {
    match lines.get(number)? {
        Line::Operate {
            to,
            operation: Operation::Reg(RegOp::Add),
            left: Operand::At(left),
            right: Operand::At(right),
        } => match base_of(lines, reads, number, *to, *left) {
            Some(base) => Some((base, *right)),
            None => Some((base_of(lines, reads, number, *to, *right)?, *left)),
        },
        _ => None,
    }
}

/// What is computed in front of each line of a block; nothing at all where no such sum is wanted.
pub(crate) fn plan_offsets(
    alloc: Global,
    plans: &mut Plans,
    reads: &[u32],
    number: usize,
    block: &Block<u32>,
) -> Result<Vec<Option<Computation>>, AllocError> {
    let lines = block.lines.as_slice();
    let mut fronts = Vec::new(alloc);
    for at in 0..lines.len() {
        if let Some((base, added)) = summands_at(lines, reads, at) {
            fronts.resize(at, None)?;
            fronts.push(plan_in_front(plans, number, base, added))?;
        }
    }
    Ok(fronts)
}
