//! Short forms of operations on numbers and by powers of two.
ghost use Rattle.std.specs.Prelude.{◌≡◌, ◌<◌, ◌-◌, ◌^◌};
ghost use Rattle.rv_isa.specs.declared.instruction.RegOp.TheVariants.{And};
ghost use Rattle.vcode.specs.declared.line.Operation.TheVariants.{Reg};
ghost use Rattle.propagation.specs.FactTable.{result_of, with_result, computed, exponent, if_below, by_power, with_operation, by_shift, shortened};

use il_ast::condition::numbers_hold;
use rv_isa::arithmetic::{reg_value, regw_value};
use rv_isa::{RegOp, RegWOp};
use vcode::cost::line_cost;
use vcode::{Line, Operand, Operation};

/// What an operation gives of two numbers.
fn result_of(operation: Operation, left: u64, right: u64) -> u64
    ensures { result ≡ result_of operation left right }
{
    match operation {
        Operation::Reg(op) => reg_value(op, left, right),
        Operation::RegW(op) => regw_value(op, left, right),
        Operation::Compare(on, class) => u64::from(numbers_hold(on, class, left, right)),
    }
}

/// The number in place of the operation that gives it, where that costs no more.
fn with_result(to: u32, operation: Operation, left: u64, right: u64, number: u64) -> Line<u32>
    ensures { result ≡ with_result to operation left right number }
{
    let old = Line::Operate {
        to,
        operation,
        left: Operand::Number(left),
        right: Operand::Number(right),
    };
    let new = Line::Set {
        to,
        value: Operand::Number(number),
    };
    if line_cost(&new) <= line_cost(&old) {
        new
    } else {
        old
    }
}

fn computed(line: Line<u32>) -> Line<u32>
    ensures { result ≡ computed line }
{
    match line {
        Line::Operate {
            to,
            operation,
            left: Operand::Number(left),
            right: Operand::Number(right),
        } => with_result(
            to,
            operation,
            left,
            right,
            result_of(operation, left, right),
        ),
        other => other,
    }
}

/// The k of which the number is 2^k.
pub(crate) fn exponent(number: u64) -> Option<u32>
    ensures { result ≡ exponent number }
{
    let places = number.trailing_zeros();
    if places < 64 && 1u64 << places == number {
        Some(places)
    } else {
        None
    }
}

fn if_below(places: u32, most: u32, operation: Operation, number: u64) -> Option<(Operation, u64)>
    ensures { result ≡ if_below places most operation number }
{
    if places < most {
        Some((operation, number))
    } else {
        None
    }
}

/// The remainder by 2^k, where its mask is an immediate.
fn masked(places: u32) -> Option<(Operation, u64)>
    requires { places < 64 }
    ensures { result ≡ if_below places 12 (Reg And) (2 ^ places - 1) }
{
    if_below(places, 12, Operation::Reg(RegOp::And), (1u64 << places) - 1)
}

/// What does by a number what this operation does by 2^k.
fn by_power(operation: Operation, places: u32) -> Option<(Operation, u64)>
    requires { places < 64 }
    ensures { result ≡ by_power operation places }
{
    let number = u64::from(places);
    match operation {
        Operation::Reg(RegOp::Mul) => Some((Operation::Reg(RegOp::Sll), number)),
        Operation::Reg(RegOp::Divu) => Some((Operation::Reg(RegOp::Srl), number)),
        Operation::Reg(RegOp::Remu) => masked(places),
        Operation::RegW(RegWOp::Mulw) => {
            if_below(places, 32, Operation::RegW(RegWOp::Sllw), number)
        }
        Operation::RegW(RegWOp::Divuw) => {
            if_below(places, 32, Operation::RegW(RegWOp::Srlw), number)
        }
        Operation::RegW(RegWOp::Remuw) => masked(places),
        _ => None,
    }
}

fn with_operation(
    to: u32,
    operation: Operation,
    left: Operand<u32>,
    number: u64,
    other: Option<(Operation, u64)>,
) -> Line<u32>
    ensures { result ≡ with_operation to operation left number other }
{
    let (operation, number) = match other {
        Some(pair) => pair,
        None => (operation, number),
    };
    Line::Operate {
        to,
        operation,
        left,
        right: Operand::Number(number),
    }
}

/// A shift or a mask in place of a multiplication, an unsigned division or a remainder by a power of two.
fn by_shift(line: Line<u32>) -> Line<u32>
    ensures { result ≡ by_shift line }
{
    match line {
        Line::Operate {
            to,
            operation,
            left,
            right: Operand::Number(number),
        } => {
            let other = match exponent(number) {
                Some(places) => by_power(operation, places),
                None => None,
            };
            with_operation(to, operation, left, number, other)
        }
        other => other,
    }
}

/// The line itself, or its short form: an operation on two numbers as the number that it gives, where that costs no more, and a multiplication, an unsigned
/// division or a remainder by a power of two as a shift or a mask.
pub fn shortened(line: Line<u32>) -> Line<u32>
    ensures { result ≡ shortened line }
{
    by_shift(computed(line))
}
