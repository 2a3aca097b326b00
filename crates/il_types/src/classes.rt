//! The classes of the places that operands stand in.
ghost use Rattle.std.specs.Prelude.{◌≡◌};
ghost use Rattle.il_ast.specs.Prelude.{operand_class, left_class, right_class, stored_class};

use il_ast::{BinaryOp, Class, Size, UnaryOp};

/// The class of the operand's place, where the result has this class.
pub fn operand_class(op: UnaryOp, class: Class) -> Class
    ensures { result ≡ operand_class op class }
{
    match op {
        UnaryOp::Neg | UnaryOp::Copy => class,
        UnaryOp::Extend(_) => Class::W,
        UnaryOp::LoadLong | UnaryOp::Load(_) => Class::L,
    }
}

/// The class of the left operand's place.
pub fn left_class(op: BinaryOp, class: Class) -> Class
    ensures { result ≡ left_class op class }
{
    match op {
        BinaryOp::Compare(_, compared) => compared,
        _ => class,
    }
}

/// The class of the right operand's place: a word for the amount of a shift.
pub fn right_class(op: BinaryOp, class: Class) -> Class
    ensures { result ≡ right_class op class }
{
    match op {
        BinaryOp::Compare(_, compared) => compared,
        BinaryOp::Sar | BinaryOp::Shr | BinaryOp::Shl => Class::W,
        _ => class,
    }
}

/// The class of the place of a stored value.
pub fn stored_class(size: Size) -> Class
    ensures { result ≡ stored_class size }
{
    match size {
        Size::Byte | Size::Half | Size::Word => Class::W,
        Size::Long => Class::L,
    }
}
