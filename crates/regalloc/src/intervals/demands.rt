//! How often each register is used, and by what.
use crate::intervals::accesses::{Access, Hint, Kind};
use crate::intervals::positions::Range;
use crate::intervals::text::Text;
use crate::lists::part;
use cfg_live::Reads;
use cfg_live::reads::{jump_reads, line_reads, register_of};
use cfg_live::uses::line_writes;
use std::alloc::{AllocError, Global};
use vcode::{Block, Code, Destination, Jump, Line, Operand};

/// What registers are used for.
#[derive(Clone, Copy)]
pub(crate) struct Demand {
    /// the spill weight: twice the number of instructions that a register of the machine saves over a slot, where a block in a loop counts ten times as often
    pub(crate) weight: u64,

    pub(crate) is_param: bool,

    /// the one of the eight registers that arguments are passed in that saves moves, as many as its weight, or one that none is passed in
    pub(crate) hint: Hint,
}

impl Demand {
    /// No use at all.
    pub(crate) fn none() -> Demand {
        Demand {
            weight: 0,
            is_param: false,
            hint: Hint::none(),
        }
    }

    /// What one more access uses.
    fn with(self, access: &Access) -> Demand {
        Demand {
            weight: self.weight.saturating_add(access.weight),
            is_param: self.is_param || access.kind == Kind::Entry,
            hint: self.hint.joined(access.hint),
        }
    }

    /// What both are used for.
    pub(crate) fn joined(self, other: Demand) -> Demand {
        Demand {
            weight: self.weight.saturating_add(other.weight),
            is_param: self.is_param || other.is_param,
            hint: self.hint.joined(other.hint),
        }
    }
}

/// A copy of a register to another. In the order of copies the one that is done most often is the last.
#[derive(Clone, Copy, PartialEq, Eq, PartialOrd, Ord)]
pub(crate) struct Copying {
    pub(crate) weight: u64,
    pub(crate) to: u32,
    pub(crate) from: u32,
}

/// The accesses of all registers in their order, the copies between them, and the points of calls.
#[derive(Drop)]
pub(crate) struct Demands {
    accesses: Vec<Access>,
    pub(crate) copies: Vec<Copying>,
    pub(crate) calls: Vec<usize>,
}

impl Demands {
    /// The accesses of the register, in the order of the text.
    pub(crate) fn accesses(&self, register: u32) -> &[Access] {
        let list = self.accesses.as_slice();
        let first = list.partition_point(|access| access.register < register);
        let end = list.partition_point(|access| access.register <= register);
        part(list, first, end)
    }

    /// What the register is used for.
    pub(crate) fn of(&self, register: u32) -> Demand {
        let accesses = self.accesses(register).iter();
        accesses.fold(Demand::none(), |demand: Demand, access| demand.with(access))
    }

    /// Whether the positions right before and right after some call are both in the range.
    pub(crate) fn is_over_call(&self, range: Range) -> bool {
        let from = range.start.saturating_add(1) / 2;
        let first = self.calls.partition_point(|call| *call < from);
        let call = self.calls.get(first);
        call.is_some_and(|call| *call < range.end.saturating_add(1) / 2)
    }
}

/// What is found on the way through the text.
#[derive(Drop)]
struct Counting {
    demands: Demands,

    /// the number of the next point
    point: usize,
}

/// Counts an access of the register that weighs so much.
fn add_hinted(
    counting: &mut Counting,
    register: u32,
    kind: Kind,
    weight: u64,
    hint: Hint,
) -> Result<(), AllocError> {
    let point = counting.point;
    counting.demands.accesses.push(Access {
        register,
        point,
        kind,
        hint,
        weight,
    })?;
    Ok(())
}

fn add(counting: &mut Counting, register: u32, kind: Kind, weight: u64) -> Result<(), AllocError> {
    add_hinted(counting, register, kind, weight, Hint::none())
}

/// Counts what the operands read, each weighing so much.
fn read(counting: &mut Counting, reads: Reads, weight: u64) -> Result<(), AllocError> {
    for register in [reads.first, reads.second] {
        if let Some(register) = register {
            add(counting, register, Kind::Read, weight)?;
        }
    }
    Ok(())
}

/// Counts that a value comes or goes as the k-th argument, so often: any place is as good as another for that, but for the register that it is passed in.
fn pass(
    counting: &mut Counting,
    register: u32,
    kind: Kind,
    k: usize,
    often: u64,
) -> Result<(), AllocError> {
    let hint = if k < 8 {
        Hint {
            argument: k as u8,
            weight: often,
        }
    } else {
        Hint::none()
    };
    add_hinted(counting, register, kind, 0, hint)
}

/// Counts what parameters save in the registers that they come in.
fn count_params(counting: &mut Counting, params: &[Destination<u32>]) -> Result<(), AllocError> {
    for (k, param) in params.iter().enumerate() {
        if k < 8 {
            pass(counting, param.place, Kind::Entry, k, 1)?;
        } else {
            add(counting, param.place, Kind::Entry, 2)?;
        }
    }
    Ok(())
}

/// Counts a copy, which takes one instruction where either register is in a register of the machine, and none where both are in the same.
fn copy(
    counting: &mut Counting,
    to: u32,
    value: &Operand<u32>,
    often: u64,
) -> Result<(), AllocError> {
    let Some(from) = register_of(value) else {
        return add(counting, to, Kind::Write, often.saturating_mul(2));
    };
    add(counting, from, Kind::Read, often)?;
    add(counting, to, Kind::Write, often)?;
    counting.demands.copies.push(Copying {
        weight: often,
        to,
        from,
    })?;
    Ok(())
}

/// Counts what a call takes and gives, which takes one instruction to or from a register as well as a slot; its result is where the first argument is. What is called
/// stands best where no argument is passed.
fn count_call(
    counting: &mut Counting,
    to: &Option<Destination<u32>>,
    reads: Reads,
    often: u64,
) -> Result<(), AllocError> {
    let point = counting.point;
    counting.demands.calls.push(point)?;
    if let Some(callee) = reads.first {
        let hint = Hint {
            argument: 8,
            weight: often,
        };
        add_hinted(counting, callee, Kind::Read, often.saturating_mul(2), hint)?;
    }
    for (k, arg) in reads.args.iter().enumerate() {
        if let Some(register) = register_of(&arg.value) {
            pass(counting, register, Kind::Read, k, often)?;
        }
    }
    match to {
        Some(to) => pass(counting, to.place, Kind::Write, 0, often),
        None => Ok(()),
    }
}

/// Counts what the line uses, which has a point. What is copied in memory takes one instruction from a register as well as from a slot.
fn count_line(counting: &mut Counting, line: &Line<u32>, often: u64) -> Result<(), AllocError> {
    let reads = line_reads(line);
    match line {
        Line::Set { to, value } => copy(counting, *to, value, often),
        Line::Call { to, .. } => count_call(counting, to, reads, often),
        Line::Blit { .. } => read(counting, reads, 0),
        _ => {
            let weight = often.saturating_mul(2);
            read(counting, reads, weight)?;
            match line_writes(line) {
                Some(to) => add(counting, to, Kind::Write, weight),
                None => Ok(()),
            }
        }
    }
}

/// Counts what the block uses, which runs so often.
fn count_block(counting: &mut Counting, block: &Block<u32>, often: u64) -> Result<(), AllocError> {
    for line in block.lines.as_slice() {
        if !matches!(line, Line::Tick { .. }) {
            count_line(counting, line, often)?;
            counting.point = counting.point.saturating_add(1);
        }
    }
    let reads = jump_reads(&block.jump);
    match (&block.jump, reads.first) {
        (Jump::Return(_), Some(register)) => pass(counting, register, Kind::Read, 0, often)?,
        _ => read(counting, reads, often.saturating_mul(2))?,
    }
    counting.point = counting.point.saturating_add(1);
    Ok(())
}

/// The demands of the registers of this code.
pub(crate) fn demands_of(
    alloc: Global,
    code: &Code<u32>,
    text: &Text,
) -> Result<Demands, AllocError> {
    let most = text.points().saturating_mul(2);
    let mut counting = Counting {
        demands: Demands {
            accesses: Vec::with_capacity(alloc, most)?,
            copies: Vec::new(alloc),
            calls: Vec::new(alloc),
        },
        point: 0,
    };
    count_params(&mut counting, code.params.as_slice())?;
    for (k, block) in code.blocks.as_slice().iter().enumerate() {
        count_block(&mut counting, block, text.often(k))?;
    }
    counting.demands.accesses.sort()?;
    Ok(counting.demands)
}
