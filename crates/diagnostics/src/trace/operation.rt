//! Why an operation on two values has no value.
use crate::trace::source::Story;
use il_ast::{BinaryOp, Condition, Value};

/// Why an operation on these values has none. Of numbers only divisions have no value.
pub fn why_none(story: &Story<'_>, op: BinaryOp, left: Value, right: Value) -> &'static str {
    match (left, right) {
        (Value::Integer(_), Value::Integer(divisor)) if divisor % 0x1_0000_0000 == 0 => {
            "a division by 0"
        }
        (Value::Integer(_), Value::Integer(_)) => {
            "the least number divided by -1, whose quotient is none"
        }
        (Value::Function(_), _) | (_, Value::Function(_)) => of_function(op),
        (Value::Pointer { .. }, _) if matches!(op, BinaryOp::Sub) => {
            "pointers into two blocks have no difference"
        }
        _ => match op {
            BinaryOp::Compare(on, _) => of_order(story, on, left, right),
            BinaryOp::Add => "two pointers have no sum",
            BinaryOp::Sub => "a pointer can't be subtracted from a number",
            BinaryOp::And | BinaryOp::Or | BinaryOp::Xor => "a pointer can't be masked",
            BinaryOp::Mul => "a pointer can't be multiplied",
            BinaryOp::Div | BinaryOp::Rem | BinaryOp::Udiv | BinaryOp::Urem => {
                "a pointer can't be divided, and nothing by it"
            }
            BinaryOp::Sar | BinaryOp::Shr | BinaryOp::Shl => "a pointer can't be shifted",
        },
    }
}

fn of_function(op: BinaryOp) -> &'static str {
    match op {
        BinaryOp::Compare(Condition::Equal | Condition::NotEqual, _) => {
            "a function can be compared with functions alone"
        }
        BinaryOp::Compare(..) => "functions have no order",
        _ => "there is no arithmetic on functions",
    }
}

/// Why a comparison of a pointer with a pointer or a number has no value.
fn of_order(story: &Story<'_>, on: Condition, left: Value, right: Value) -> &'static str {
    let is_equality = matches!(on, Condition::Equal | Condition::NotEqual);
    match (left, right) {
        (Value::Pointer { block, .. }, Value::Pointer { block: other, .. }) if block != other => {
            if is_equality {
                of_place(story, left, right, true)
            } else {
                "pointers into two blocks have no order"
            }
        }
        (Value::Pointer { .. }, Value::Pointer { .. }) if is_signed(on) => {
            "pointers have no order by sign; compare them as unsigned"
        }
        (Value::Pointer { .. }, Value::Pointer { .. }) => of_place(story, left, right, false),
        (Value::Integer(0), _) | (_, Value::Integer(0)) if is_equality => {
            of_place(story, left, right, false)
        }
        _ => "a pointer is compared with a number, and not for being 0",
    }
}

fn is_signed(on: Condition) -> bool {
    matches!(
        on,
        Condition::SignedLess
            | Condition::SignedLessEqual
            | Condition::SignedGreater
            | Condition::SignedGreaterEqual
    )
}

/// Why pointers aren't at places that are compared: the block is dead, or they are behind its end; or at its end, where blocks are two.
fn of_place(story: &Story<'_>, left: Value, right: Value, are_two: bool) -> &'static str {
    if is_dead(story, left) || is_dead(story, right) {
        "the block is dead, since its function has returned"
    } else if are_two {
        "a pointer at or behind the end of its block has no place among other blocks"
    } else {
        "a pointer behind the end of its block is compared"
    }
}

fn is_dead(story: &Story<'_>, value: Value) -> bool {
    match value {
        Value::Pointer { block, .. } => story.running.block_size(block).is_none(),
        Value::Integer(_) | Value::Function(_) => false,
    }
}
