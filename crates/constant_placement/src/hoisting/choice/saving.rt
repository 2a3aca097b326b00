//! How many instructions it saves to read a constant from a register.
use il_ast::Class;
use operation_code::constant::{constant_length, word};
use operation_code::immediate::{number_form, swapped};
use rv_isa::{RegOp, RegWOp};
use vcode::{Comparison, Operand, Operation};

/// The instructions that have a number in a register; x0 has 0.
fn number_cost(number: u64) -> i64 {
    if number == 0 {
        0
    } else {
        i64::try_from(constant_length(number)).unwrap_or(i64::MAX)
    }
}

/// What it saves where an operand is read from a register: the instructions that have it in one.
pub(crate) fn where_read(operand: &Operand<u32>) -> i64 {
    match operand {
        Operand::At(_) => 0,
        Operand::Number(number) => number_cost(*number),
        Operand::Name(_) => 2,
    }
}

/// What it saves where an operand goes to a register, to which another is copied.
pub(crate) fn where_copied(operand: &Operand<u32>) -> i64 {
    match operand {
        Operand::At(_) => 0,
        _ => where_read(operand).saturating_sub(1),
    }
}

/// What it saves where an operand is compared: a register is extended before it is read as a word, a number needs no extension.
fn where_compared(class: Class, operand: &Operand<u32>) -> i64 {
    match class {
        Class::L => where_read(operand),
        Class::W => match operand {
            Operand::At(_) => 0,
            Operand::Number(number) => number_cost(word(*number)).saturating_sub(1),
            Operand::Name(_) => 2,
        },
    }
}

/// What it saves at both operands of a branch.
pub(crate) fn where_branching(on: &Comparison<u32>) -> (i64, i64) {
    (
        where_compared(on.class, &on.left),
        where_compared(on.class, &on.right),
    )
}

/// Whether an instruction does the operation with the number on its right.
fn has_form(operation: Operation, number: u64) -> bool {
    number_form(&operation, number).is_some()
}

/// What it saves where an instruction has the number in it: a shift in place of a product, and an extension of the other operand alone, are lost.
fn in_form(operation: Operation) -> i64 {
    match operation {
        Operation::Reg(RegOp::Mul)
        | Operation::RegW(RegWOp::Mulw)
        | Operation::Compare(_, Class::W) => -1,
        _ => 0,
    }
}

fn where_operated(operation: Operation, operand: &Operand<u32>) -> i64 {
    match operation {
        Operation::Compare(_, class) => where_compared(class, operand),
        _ => where_read(operand),
    }
}

fn at_left(operation: Operation, left: &Operand<u32>) -> i64 {
    if let Operand::Number(number) = left
        && let Some(exchanged) = swapped(&operation)
        && has_form(exchanged, *number)
    {
        in_form(operation)
    } else {
        where_operated(operation, left)
    }
}

/// What it saves at both operands of an operation.
pub(crate) fn where_operating(
    operation: Operation,
    left: &Operand<u32>,
    right: &Operand<u32>,
) -> (i64, i64) {
    match right {
        Operand::Number(number) if has_form(operation, *number) => {
            (where_operated(operation, left), in_form(operation))
        }
        _ => (at_left(operation, left), where_operated(operation, right)),
    }
}
