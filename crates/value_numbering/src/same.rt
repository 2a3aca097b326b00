//! Whether two facts say the same. No says nothing.
ghost use Rattle.std.specs.Prelude.{◌≡◌, true};

use crate::fact::{Expression, Fact};
use il_ast::{Class, Condition};
use vcode::{Operand, Operation};

pub(crate) fn same_operand(left: Operand<u32>, right: Operand<u32>) -> bool
    ensures { result ≡ true → left ≡ right }
{
    match left {
        Operand::At(one) => match right {
            Operand::At(other) => one == other,
            _ => false,
        },
        Operand::Number(one) => match right {
            Operand::Number(other) => one == other,
            _ => false,
        },
        Operand::Name(one) => match right {
            Operand::Name(other) => one.number() == other.number(),
            _ => false,
        },
    }
}

fn same_comparison(left: (Condition, Class), right: (Condition, Class)) -> bool
    ensures { result ≡ true → left ≡ right }
{
    left.0 == right.0 && left.1 == right.1
}

pub(crate) fn same_operation(left: Operation, right: Operation) -> bool
    ensures { result ≡ true → left ≡ right }
{
    match (left, right) {
        (Operation::Reg(one), Operation::Reg(other)) => one == other,
        (Operation::RegW(one), Operation::RegW(other)) => one == other,
        (Operation::Compare(on, class), Operation::Compare(other, of)) => {
            same_comparison((on, class), (other, of))
        }
        _ => false,
    }
}

/// Whether the expressions are the same.
pub(crate) fn same_expression(left: &Expression, right: &Expression) -> bool
    ensures { result ≡ true → left.now ≡ right.now }
{
    match (*left, *right) {
        (Expression::Same(one), Expression::Same(other)) => same_operand(one, other),
        (Expression::Operated(op, a, b), Expression::Operated(other, c, d)) => {
            same_operation(op, other) && same_operand(a, c) && same_operand(b, d)
        }
        (Expression::Extended(op, a, bits), Expression::Extended(other, b, by)) => {
            op == other && bits == by && same_operand(a, b)
        }
        (Expression::Loaded(op, a, distance), Expression::Loaded(other, b, far)) => {
            op == other && distance == far && same_operand(a, b)
        }
        (Expression::Linear(a, i, factor, offset), Expression::Linear(b, j, by, far)) => {
            factor == by && offset == far && same_operand(a, b) && same_operand(i, j)
        }
        (Expression::Growing(a, number), Expression::Growing(b, by)) => {
            number == by && same_operand(a, b)
        }
        _ => false,
    }
}

/// Whether the facts are the same.
pub(crate) fn same_fact(left: &Fact, right: &Fact) -> bool
    ensures { result ≡ true → left.now ≡ right.now }
{
    left.register == right.register && same_expression(&left.value, &right.value)
}
