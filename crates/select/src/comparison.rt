//! Comparisons of operands.
ghost use Rattle.std.specs.Prelude.{◌≡◌};
ghost use Rattle.select.specs.Selected.{comparison_of, not_zero};
ghost use Rattle.select.specs.Narrow.{listed};

use crate::operand::{is_whole, word};
use il_ast::{Class, Condition};
use vcode::{Comparison, Operand};

/// The comparison of two operands in places of a class. Two words that both stand sign-extended compare as longs.
pub(crate) fn comparison(
    classes: &[Class],
    condition: Condition,
    class: Class,
    left: Operand<u32>,
    right: Operand<u32>,
) -> Comparison<u32>
    ensures { result ≡ comparison_of (listed classes.now) condition class left right }
{
    if class == Class::W && is_whole(classes, &left) && is_whole(classes, &right) {
        Comparison {
            condition,
            class: Class::L,
            left: word(left),
            right: word(right),
        }
    } else {
        Comparison {
            condition,
            class,
            left,
            right,
        }
    }
}

/// That an operand's word is not 0.
pub(crate) fn not_zero(classes: &[Class], value: Operand<u32>) -> Comparison<u32>
    ensures { result ≡ not_zero (listed classes.now) value }
{
    comparison(
        classes,
        Condition::NotEqual,
        Class::W,
        value,
        Operand::Number(0),
    )
}
