//! Whether lines of a function may compute what others do: a guess, before it is found what is known where.
use crate::extensions::extension_in;
use crate::fact::{Expression, Fact, computed, names, stays};
use crate::known::{canonical, is_back, is_plain, kept_fact};
use crate::lines::{is_dear, is_worth};
use crate::same::{same_operand, same_operation};
use flow::graph::reachable;
use rv_isa::{RegOp, RegWOp};
use std::alloc::{AllocError, Global};
use vcode::{Block, Line, Operand, Operation};

/// How many values are compared with each other, at most: where there are more, some may repeat others.
const MOST: usize = 16;

/// What a line computes.
#[derive(Clone, Copy)]
struct Seen {
    /// of registers that are no copies, as far as its block tells
    fact: Fact,

    /// whether a register that it reads may hold what another does all the same
    is_open: bool,

    /// which line it is, counted through all blocks
    line: usize,
}

/// What is known on the way along a block.
#[derive(Drop)]
struct Way {
    values: Vec<Seen>,

    /// copies that this block made
    copies: Vec<Fact>,

    /// copies that other blocks made
    outer: Vec<Fact>,
    line: usize,
}

/// Whether the operands may hold the same: two registers may, where one is open.
fn may_be_same(is_open: bool, one: &Operand<u32>, other: &Operand<u32>) -> bool {
    match (one, other) {
        (Operand::At(_), Operand::At(_)) if is_open => true,
        _ => same_operand(*one, *other),
    }
}

fn is_tick(line: &Line<u32>) -> bool {
    matches!(line, Line::Tick { .. })
}

/// Whether the operation is a sum, of words or of longs.
fn is_sum(operation: &Operation) -> bool {
    match operation {
        Operation::Reg(RegOp::Add) | Operation::RegW(RegWOp::Addw) => true,
        _ => false,
    }
}

/// Whether two operations may give the same of the same operands, of which the right one is given: a number may be added to a word or to a long.
fn may_agree(one: &Operation, other: &Operation, right: &Operand<u32>) -> bool {
    match right {
        Operand::Number(_) if is_sum(one) => is_sum(other),
        _ => same_operation(*one, *other),
    }
}

/// Whether both shift to the left: what one shifts may be an extension by the other.
fn are_shifts(one: &Operation, other: &Operation) -> bool {
    match (one, other) {
        (Operation::Reg(RegOp::Sll), Operation::Reg(RegOp::Sll)) => true,
        _ => false,
    }
}

/// Whether what one computes may be what the other does, or be made of that.
fn may_repeat(one: &Seen, other: &Seen) -> bool {
    let is_open = one.is_open || other.is_open;
    match (&one.fact.value, &other.fact.value) {
        (Expression::Operated(op, a, b), Expression::Operated(by, c, d)) => {
            are_shifts(op, by)
                || may_agree(op, by, b)
                    && (may_be_same(is_open, a, c) && may_be_same(is_open, b, d)
                        || may_be_same(is_open, a, d) && may_be_same(is_open, b, c))
        }
        (Expression::Loaded(op, a, distance), Expression::Loaded(by, b, far)) => {
            *op == *by && *distance == *far && may_be_same(is_open, a, b)
        }
        _ => false,
    }
}

/// Whether one may be made of the other, and one of the two is worth a register.
fn are_worth(one: &Seen, other: &Seen) -> bool {
    (is_worth(one.fact.value) || is_worth(other.fact.value)) && may_repeat(one, other)
}

/// Whether a value is an extension, or may be one together with what stands before it.
fn may_extend(value: &Expression) -> bool {
    match *value {
        Expression::Operated(Operation::Reg(op), operand, Operand::Number(bits)) if is_back(op) => {
            extension_in(&Expression::Extended(op, operand, bits)).is_some()
        }
        _ => extension_in(value).is_some(),
    }
}

/// Whether sums of what it gives may be known otherwise.
fn is_linear(value: &Expression) -> bool {
    match value {
        Expression::Operated(Operation::Reg(RegOp::Add | RegOp::Sll | RegOp::Mul), _, _) => true,
        Expression::Operated(Operation::RegW(RegWOp::Addw), _, _) => true,
        _ => false,
    }
}

/// Whether it is a sum of registers: that may be known beyond a change of what it is made of.
fn is_sum_of_registers(value: &Expression) -> bool {
    match value {
        Expression::Operated(Operation::Reg(RegOp::Add), Operand::At(_), Operand::At(_)) => true,
        _ => false,
    }
}

impl Way {
    /// Whether another block may have made the operand a copy.
    fn is_copy(&self, operand: &Operand<u32>) -> bool {
        self.outer.iter().any(|copy| names(copy.register, *operand))
    }

    fn is_linear(&self, operand: &Operand<u32>) -> bool {
        self.values.iter().any(|seen| names(seen.fact.register, *operand)
            && is_linear(&seen.fact.value))
    }

    /// Whether a register that the value reads may hold what another does, or, where that tells of a sum, what others do and a number more.
    fn is_open(&self, value: &Expression) -> bool {
        match value {
            Expression::Operated(operation, left, right) => {
                self.is_copy(left)
                    || self.is_copy(right)
                    || is_sum(operation) && (self.is_linear(left) || self.is_linear(right))
            }
            Expression::Loaded(_, base, _) => self.is_copy(base),
            _ => true,
        }
    }

    /// What the line that comes next computes.
    fn seen(&self, fact: &Fact) -> Seen {
        let value = if self.copies.is_empty() {
            fact.value
        } else {
            canonical(self.copies.as_slice(), fact.value)
        };
        Seen {
            fact: Fact {
                register: fact.register,
                value,
            },
            is_open: self.is_open(&value),
            line: self.line,
        }
    }

    /// Whether what a line computes may be known where it stands.
    fn may_know(&self, one: &Seen) -> bool {
        is_dear(one.fact.value)
            && self
                .values
                .iter()
                .any(|other| other.line != one.line && are_worth(other, one))
    }

    /// Leaves what is known behind a line.
    fn forget(&mut self, line: &Line<u32>) {
        if !self.values.is_empty() {
            self.values.retain(|seen| is_sum_of_registers(&seen.fact.value)
                || stays(line, seen.fact));
        }
        if !self.copies.is_empty() || !self.outer.is_empty() {
            self.copies.retain(|copy| stays(line, *copy));
            self.outer.retain(|copy| stays(line, *copy));
        }
    }

    /// One value more, or one copy.
    fn note(&mut self, seen: &Seen) -> Result<(), AllocError> {
        match (kept_fact(seen.fact), seen.fact.value) {
            (Some(copy), Expression::Same(_)) => self.copies.push(copy)?,
            (Some(_), value) if is_dear(value) => self.values.push(*seen)?,
            _ => {}
        }
        Ok(())
    }

    /// Goes over a line; says whether it may compute what is known, or whether there are many copies.
    fn pass(&mut self, line: &Line<u32>) -> Result<bool, AllocError> {
        self.line = self.line.saturating_add(1);
        let fact = match computed(line) {
            Some(fact) if !is_plain(fact.value) => fact,
            _ => {
                self.forget(line);
                return Ok(false);
            }
        };
        let seen = self.seen(&fact);
        if self.may_know(&seen) || self.copies.len() >= MOST {
            return Ok(true);
        }
        self.forget(line);
        self.note(&seen)?;
        Ok(false)
    }

    /// Goes along a block in the same way.
    fn pass_block(&mut self, block: &Block<u32>) -> Result<bool, AllocError> {
        for line in block.lines.as_slice().iter().filter(|line| !is_tick(line)) {
            if self.pass(line)? {
                return Ok(true);
            }
        }
        Ok(false)
    }

    /// Goes on at the begin of a block, where all this may be known.
    fn begin(&mut self, known: &Way) -> Result<(), AllocError> {
        self.values.clear();
        self.copies.clear();
        self.outer.clear();
        if !known.values.is_empty() {
            self.values.extend_from_slice(known.values.as_slice())?;
        }
        if !known.outer.is_empty() {
            self.outer.extend_from_slice(known.outer.as_slice())?;
        }
        Ok(())
    }

    /// Takes in what is known behind a block; says whether there are many copies.
    fn take(&mut self, way: &Way) -> Result<bool, AllocError> {
        if !way.values.is_empty() {
            self.values.extend_from_slice(way.values.as_slice())?;
        }
        if !way.copies.is_empty() {
            self.outer.extend_from_slice(way.copies.as_slice())?;
        }
        Ok(self.outer.len() >= MOST)
    }
}

fn nothing(alloc: Global) -> Way {
    Way {
        values: Vec::new(alloc),
        copies: Vec::new(alloc),
        outer: Vec::new(alloc),
        line: 0,
    }
}

/// What may be known where blocks end that something leads to, by their own lines; none where a line may compute what is known by its block, or there are many copies.
fn known_behind(
    alloc: Global,
    is_reachable: &[bool],
    blocks: &[Block<u32>],
) -> Result<Option<Way>, AllocError> {
    let none = nothing(alloc);
    let mut all = nothing(alloc);
    let mut way = nothing(alloc);
    for (block, is_reached) in blocks.iter().zip(is_reachable) {
        if *is_reached {
            way.begin(&none)?;
            if way.pass_block(block)? || all.take(&way)? {
                return Ok(None);
            }
        }
    }
    Ok(Some(all))
}

/// Whether a line may compute what is known where it stands, if all this may be known where each block begins.
fn any_is_known(
    alloc: Global,
    is_reachable: &[bool],
    known: &Way,
    blocks: &[Block<u32>],
) -> Result<bool, AllocError> {
    let mut way = nothing(alloc);
    for (block, is_reached) in blocks.iter().zip(is_reachable) {
        if *is_reached {
            way.begin(known)?;
            if way.pass_block(block)? {
                return Ok(true);
            }
        }
    }
    Ok(false)
}

/// Whether a line may compute what is known where it stands.
fn may_be_known(alloc: Global, blocks: &[Block<u32>]) -> Result<bool, AllocError> {
    let reached = reachable(alloc, blocks)?;
    match known_behind(alloc, reached.as_slice(), blocks)? {
        Some(known) => any_is_known(alloc, reached.as_slice(), &known, blocks),
        None => Ok(true),
    }
}

/// The values that lines compute, as if any register might hold what another does; none where they are many, or one is an extension.
fn values(alloc: Global, blocks: &[Block<u32>]) -> Result<Option<Vec<Seen>>, AllocError> {
    let mut values = Vec::new(alloc);
    for line in blocks
        .iter()
        .flat_map(|block| block.lines.as_slice())
        .filter(|line| !is_tick(line))
    {
        if let Some(fact) = computed(line)
            && is_dear(fact.value)
        {
            if values.len() >= MOST || may_extend(&fact.value) {
                return Ok(None);
            }
            values.push(Seen {
                fact,
                is_open: true,
                line: values.len(),
            })?;
        }
    }
    Ok(Some(values))
}

/// Whether one of the values may be what another is.
fn any_may_repeat(values: &[Seen]) -> bool {
    values.iter().any(|one| {
        values
            .iter()
            .any(|other| other.line < one.line && are_worth(other, one))
    })
}

/// Whether some line of the blocks may compute what another does, or extend something.
///
/// # Errors
///
/// Only where memory was refused.
pub(crate) fn blocks_may_repeat(alloc: Global, blocks: &[Block<u32>]) -> Result<bool, AllocError> {
    match values(alloc, blocks)? {
        Some(values) => Ok(any_may_repeat(values.as_slice()) && may_be_known(alloc, blocks)?),
        None => Ok(true),
    }
}
