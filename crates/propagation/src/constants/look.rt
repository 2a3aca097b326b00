//! Whether lines or jumps may be put otherwise by what is known along their blocks: a look at them, before they are made anew.
use crate::constants::claim::{Claim, Entry, claims_at};
use crate::constants::replace::{is_add, is_short};
use crate::constants::strength_reduction::exponent;
use cfg_live::LowRegisters;
use rv_isa::{RegOp, RegWOp};
use vcode::{Block, Comparison, Jump, Line, Operand, Operation};

/// How much is put by what is known.
#[derive(Clone, Copy)]
pub(crate) enum Extent {
    /// operands, lines and jumps
    Operands,

    /// copies, and branches whose outcome is known: no number takes the place of a register but in another copy
    Copies,
}

/// The registers of which something was made known so far in a block, by their numbers modulo 128.
#[derive(Clone, Copy)]
struct Known {
    extent: Extent,
    /// those that hold a number that is an immediate
    numbers: LowRegisters,
    /// those that hold what another does
    copies: LowRegisters,
    /// sums of a register and a number
    sums: LowRegisters,
    /// results of comparisons
    tests: LowRegisters,
}

fn is_in(registers: LowRegisters, operand: &Operand<u32>) -> bool {
    match operand {
        Operand::At(register) => registers.contains(*register % 128),
        _ => false,
    }
}

fn is_number(operand: &Operand<u32>) -> bool {
    match operand {
        Operand::Number(_) => true,
        _ => false,
    }
}

/// Whether the operation by a number has a short form, where that is a power of two.
fn may_be_short(operation: Operation) -> bool {
    match operation {
        Operation::Reg(RegOp::Mul | RegOp::Divu | RegOp::Remu) => true,
        Operation::RegW(RegWOp::Mulw | RegWOp::Divuw | RegWOp::Remuw) => true,
        _ => false,
    }
}

fn is_power(operand: &Operand<u32>) -> bool {
    match operand {
        Operand::Number(number) => exponent(*number).is_some(),
        _ => false,
    }
}

impl Known {
    fn nothing(extent: Extent) -> Known {
        Known {
            extent,
            numbers: LowRegisters::new(),
            copies: LowRegisters::new(),
            sums: LowRegisters::new(),
            tests: LowRegisters::new(),
        }
    }

    fn puts_numbers(&self) -> bool {
        match self.extent {
            Extent::Operands => true,
            Extent::Copies => false,
        }
    }

    /// The registers in whose places others are put, or numbers.
    fn put(&self) -> LowRegisters {
        if self.puts_numbers() {
            self.copies.joined(self.numbers)
        } else {
            self.copies
        }
    }

    /// Whether the operation on a number may be another.
    fn changes_number(
        &self,
        operation: Operation,
        left: &Operand<u32>,
        right: &Operand<u32>,
    ) -> bool {
        self.puts_numbers() && is_number(left)
            || may_be_short(operation) && is_power(right)
            || is_add(operation) && is_in(self.sums, left)
    }

    /// Whether an operation may be put otherwise.
    fn changes_operation(
        &self,
        operation: Operation,
        left: &Operand<u32>,
        right: &Operand<u32>,
    ) -> bool {
        let put = self.put();
        is_in(put, left)
            || is_in(put, right)
            || is_number(right) && self.changes_number(operation, left, right)
    }

    /// Whether the base of an address may be another.
    fn changes_base(&self, base: &Operand<u32>) -> bool {
        is_in(self.put().joined(self.sums), base)
    }

    /// Whether a line may be put otherwise.
    fn changes(&self, line: &Line<u32>) -> bool {
        match line {
            Line::Tick { .. } | Line::Alloc { .. } => false,
            Line::Set { value, .. } => is_in(self.copies.joined(self.numbers), value),
            Line::Operate {
                operation,
                left,
                right,
                ..
            } => self.changes_operation(*operation, left, right),
            Line::Load { at, .. } => self.changes_base(&at.base),
            Line::Store { value, at, .. } => {
                is_in(self.put(), value) || self.changes_base(&at.base)
            }
            Line::Blit { .. } | Line::Call { .. } => {
                self.puts_numbers() && !self.put().is_empty()
            }
        }
    }

    /// Whether the operand is a number, or holds one.
    fn may_be_number(&self, operand: &Operand<u32>) -> bool {
        is_number(operand) || is_in(self.numbers, operand)
    }

    /// Whether a branch may be another, or be a jump.
    fn changes_branch(&self, on: &Comparison<u32>) -> bool {
        is_in(self.put().joined(self.tests), &on.left)
            || is_in(self.put(), &on.right)
            || self.may_be_number(&on.left) && self.may_be_number(&on.right)
    }

    fn changes_jump(&self, jump: &Jump<u32>) -> bool {
        match jump {
            Jump::Goto(_) | Jump::Halt | Jump::Return(None) => false,
            Jump::Branch { on, .. } => self.changes_branch(on),
            Jump::Return(Some(returned)) => {
                self.puts_numbers() && is_in(self.put(), &returned.value)
            }
        }
    }

    /// The register holds what the operand does.
    fn note_same(&mut self, register: u32, value: &Operand<u32>) {
        match value {
            Operand::At(_) => self.copies = self.copies.with(register % 128),
            Operand::Number(_) if is_short(value) => {
                self.numbers = self.numbers.with(register % 128);
            }
            _ => {}
        }
    }

    /// With what a line makes known.
    fn note(&mut self, line: &Line<u32>) {
        match line {
            Line::Set { to, value } => self.note_same(*to, value),
            Line::Operate {
                to,
                operation: Operation::Compare(_, _),
                ..
            } => self.tests = self.tests.with(*to % 128),
            Line::Operate {
                to,
                operation,
                right: Operand::Number(_),
                ..
            } => {
                if is_add(*operation) {
                    self.sums = self.sums.with(*to % 128);
                }
            }
            _ => {}
        }
    }
}

/// What is claimed where a block begins.
fn claimed(extent: Extent, claims: &[Claim]) -> Known {
    let mut known = Known::nothing(extent);
    for claim in claims {
        known.note_same(claim.register, &claim.value);
    }
    known
}

/// Whether a line or the jump of a block may be put otherwise, by itself or by these claims and what the lines make known.
pub(crate) fn block_may_change(extent: Extent, claims: &[Claim], block: &Block<u32>) -> bool {
    let mut known = claimed(extent, claims);
    for line in block.lines.as_slice() {
        if known.changes(line) {
            return true;
        }
        known.note(line);
    }
    known.changes_jump(&block.jump)
}

/// The first block of which a line or the jump may be put otherwise, by what is claimed where it begins and what its lines make known.
pub(crate) fn first_change(
    extent: Extent,
    entries: &[Entry],
    blocks: &[Block<u32>],
) -> Option<usize> {
    blocks.iter().enumerate().position(|(number, block)| block_may_change(
        extent,
        claims_at(entries, number),
        block,
    ))
}
