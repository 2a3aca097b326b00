//! What lines take, in cycles of a processor with one pipeline that begins an instruction each cycle, in their order, and waits where one reads what isn't there yet.
//!
//! The numbers are those of SiFive's U54 (U54 Core Complex Manual, "Execution Pipeline"): the results of most instructions are there for the next one.
use rv_isa::{LoadOp, RegOp, RegWOp};
use vcode::cost::is_immediate;
use vcode::{Line, Location, Operand, Operation};

/// From an instruction to one that reads its result, for most.
const NEXT: u32 = 1;

/// Loads of words and longs.
const LOAD: u32 = 2;

/// Loads of bytes and halves, which are shifted.
const NARROW_LOAD: u32 = 3;

/// Products.
const PRODUCT: u32 = 5;

/// Quotients and remainders take from 3 cycles to 65, by their operands, and nothing else begins in that time.
const QUOTIENT: u32 = 6;

/// Is it a number of which the product is a shift?
fn is_power(operand: &Operand<Location>) -> bool {
    match operand {
        Operand::Number(number) => number.is_power_of_two(),
        Operand::At(_) | Operand::Name(_) => false,
    }
}

fn of_operation(operation: &Operation, left: &Operand<Location>, right: &Operand<Location>) -> u32 {
    match operation {
        Operation::Reg(RegOp::Mul) | Operation::RegW(RegWOp::Mulw) => {
            if is_power(left) || is_power(right) {
                NEXT
            } else {
                PRODUCT
            }
        }
        Operation::Reg(RegOp::Mulh | RegOp::Mulhsu | RegOp::Mulhu) => PRODUCT,
        _ => NEXT,
    }
}

/// The cycles in which nothing else begins.
fn held_up(operation: &Operation) -> u32 {
    match operation {
        Operation::Reg(RegOp::Div | RegOp::Divu | RegOp::Rem | RegOp::Remu)
        | Operation::RegW(RegWOp::Divw | RegWOp::Divuw | RegWOp::Remw | RegWOp::Remuw) => {
            QUOTIENT - 1
        }
        _ => 0,
    }
}

fn of_load(op: LoadOp) -> u32 {
    match op {
        LoadOp::Lw | LoadOp::Lwu | LoadOp::Ld => LOAD,
        LoadOp::Lb | LoadOp::Lbu | LoadOp::Lh | LoadOp::Lhu => NARROW_LOAD,
    }
}

fn in_slot(place: Location) -> bool {
    matches!(place, Location::Slot(_))
}

/// The cycles until an operand is in a register.
fn of_operand(operand: &Operand<Location>) -> u32 {
    match operand {
        Operand::At(place) => { if in_slot(*place) { LOAD } else { 0 } }
        Operand::Number(number) => { if is_immediate(*number) { 0 } else { 2 } }
        Operand::Name(_) => 2,
    }
}

/// The cycles from the begin of a line to the last instruction that it becomes, and from there until its result can be read.
#[derive(Clone, Copy)]
pub struct Times {
    pub before: u32,
    pub latency: u32,
}

/// With a result that is to be had so long after the last instruction, and stored where its place is a slot.
fn delivered(to: Location, before: u32, latency: u32) -> Times {
    if in_slot(to) {
        Times {
            before: before.saturating_add(latency),
            latency: NEXT,
        }
    } else {
        Times { before, latency }
    }
}

/// What a line takes.
pub fn times_of(line: &Line<Location>) -> Times {
    match line {
        Line::Tick { .. } => Times {
            before: 0,
            latency: 0,
        },
        Line::Set { to, value } => match value {
            Operand::At(place) if in_slot(*place) => delivered(*to, 0, LOAD),
            _ => delivered(*to, of_operand(value) / 2, NEXT),
        },
        Line::Operate {
            to,
            operation,
            left,
            right,
        } => delivered(
            *to,
            of_operand(left)
                .saturating_add(of_operand(right))
                .saturating_add(held_up(operation)),
            of_operation(operation, left, right),
        ),
        Line::Load { to, op, at } => delivered(*to, of_operand(&at.base) / 2, of_load(*op)),
        Line::Store { value, at, .. } => Times {
            before: of_operand(value).saturating_add(of_operand(&at.base)),
            latency: NEXT,
        },
        Line::Alloc { .. } | Line::Blit { .. } | Line::Call { .. } => Times {
            before: 8,
            latency: NEXT,
        },
    }
}
