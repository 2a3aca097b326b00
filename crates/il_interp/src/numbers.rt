//! Operations on integers.
ghost use Rattle.std.specs.Prelude.{◌≡◌, List, Some, IfSome, MatchBool};
ghost use Rattle.il_ast.specs.declared.instruction.Inst.TheVariants.{Binary};
ghost use Rattle.il_ast.specs.declared.value.Value.{Value as ValueOf};
ghost use Rattle.il_ast.specs.declared.value.Value.TheVariants.{Integer};
ghost use Rattle.il_ast.specs.Prelude.{value_at, Memory, left_class, right_class, on_integers};
ghost use Rattle.il_interp.specs.Rows.{in_class, held, Does};

use crate::integers::{on_longs, on_words};
use crate::slots::Slots;
use il_ast::condition::numbers_hold;
use il_ast::{BinaryOp, Class, Dest, Val};

/// The number that an operand is, where that is an integer: none for a pointer, a function or a
/// global name, and for a temporary that isn't assigned yet.
pub fn number_at(temps: &Slots, value: &Val) -> Option<u64>
    ensures { IfSome result (λ number. (globals : List ValueOf) → value_at globals temps.now value.now ≡ Some (Integer number)) }
{
    match value {
        Val::Int(number) => Some(*number),
        Val::Temp(temp) => temps.number(temp.number()),
        Val::Global(_) => None,
    }
}

/// What a place of a class takes of an integer: the low 32 bits for a word.
pub fn in_class(class: Class, number: u64) -> u64
    ensures { result ≡ in_class class number }
{
    match class {
        Class::W => number % 0x1_0000_0000,
        Class::L => number,
    }
}

/// The operation on two integers, as their places take them; none where it is undefined.
#[tactic(auto, using(crate::proofs::RowLemmas::reduced))]
fn on_numbers(op: BinaryOp, class: Class, a: u64, b: u64) -> Option<u64>
    ensures { result ≡ on_integers op class (in_class (left_class op class) a) (in_class (right_class op class) b) }
{
    match op {
        BinaryOp::Compare(on, compared) => Some(u64::from(numbers_hold(on, compared, a, b))),
        _ => match class {
            Class::W => {
                let made = on_words(op, (a % 0x1_0000_0000) as u32, (b % 0x1_0000_0000) as u32)?;
                Some(u64::from(made))
            }
            Class::L => on_longs(op, a, b),
        },
    }
}

/// `to = op left, right`, where both are integers and the operation is defined. Answers whether it
/// was done.
pub fn binary(temps: &mut Slots, to: &Dest, op: &BinaryOp, left: &Val, right: &Val) -> bool
    ensures { MatchBool result ((globals : List ValueOf) (m : Memory) → Does globals (held temps.old m) (Binary to.now op.now left.now right.now) (held temps.new m)) (temps.new ≡ temps.old) }
{
    if let Some(a) = number_at(temps, left)
        && let Some(b) = number_at(temps, right)
        && let Some(made) = on_numbers(*op, to.class, a, b)
    {
        temps.set_number(to.temp.number(), made);
        return true;
    }
    false
}
