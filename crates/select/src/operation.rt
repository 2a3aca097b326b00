//! Lines of operations on one operand and on two.
ghost use Rattle.std.specs.Prelude.{◌≡◌, ◌++◌, ◌∷◌, [], OnOk};
ghost use Rattle.il_ast.specs.declared.operation.Class.TheVariants.{W as InWord, L as InLong};
ghost use Rattle.rv_isa.specs.declared.instruction.RegOp.TheVariants.{And as LowBits};
ghost use Rattle.vcode.specs.declared.line.Operation.TheVariants.{Reg};
ghost use Rattle.vcode.specs.declared.line.Line.TheVariants.{Operate};
ghost use Rattle.vcode.specs.declared.place.Operand.TheVariants.{Number};
ghost use Rattle.select.specs.Selected.{as_word, word_of, shifted, extend_lines, load_of, copy_lines, negate_lines, unary_lines, operation_of, bit_lines, compare_line, binary_lines};
ghost use Rattle.select.specs.Narrow.{listed};

use crate::comparison::comparison;
use crate::operand::{is_whole, word};
use il_ast::{BinaryOp, Class, Extension, Seq, UnaryOp};
use rv_isa::{LoadOp, RegOp, RegWOp};
use std::alloc::AllocError;
use vcode::{Address, Comparison, Line, Operand, Operation};

/// The low 32 bits of an operand, sign-extended.
fn as_word(to: u32, value: Operand<u32>) -> Line<u32>
    ensures { result ≡ as_word to value }
{
    Line::Operate {
        to,
        operation: Operation::RegW(RegWOp::Addw),
        left: value,
        right: Operand::Number(0),
    }
}

/// The word of an operand, sign-extended: by no operation where it stands so.
fn word_of(classes: &[Class], to: u32, value: Operand<u32>) -> Line<u32>
    ensures { result ≡ word_of (listed classes.now) to value }
{
    if is_whole(classes, &value) {
        Line::Set {
            to,
            value: word(value),
        }
    } else {
        as_word(to, value)
    }
}

/// A copy to a register of the class.
pub(crate) fn copy(classes: &[Class], to: u32, class: Class, value: Operand<u32>) -> Line<u32>
    ensures { result ∷ [] ≡ copy_lines (listed classes.now) to class value }
{
    match class {
        Class::W => word_of(classes, to, value),
        Class::L => Line::Set { to, value },
    }
}

fn negate(to: u32, class: Class, value: Operand<u32>) -> Line<u32>
    ensures { result ∷ [] ≡ negate_lines to class value }
{
    let operation = match class {
        Class::W => Operation::RegW(RegWOp::Subw),
        Class::L => Operation::Reg(RegOp::Sub),
    };
    Line::Operate {
        to,
        operation,
        left: Operand::Number(0),
        right: value,
    }
}

/// A shift to the left by so many bits, and then one to the right.
fn push_shifted(
    lines: &mut Seq<Line<u32>>,
    to: u32,
    back: RegOp,
    bits: u64,
    value: Operand<u32>,
) -> Result<(), AllocError>
    ensures { OnOk result (lines.new ≡ lines.old ++ shifted to back bits value) }
{
    lines.push(Line::Operate {
        to,
        operation: Operation::Reg(RegOp::Sll),
        left: value,
        right: Operand::Number(bits),
    })?;
    lines.push(Line::Operate {
        to,
        operation: Operation::Reg(back),
        left: Operand::At(to),
        right: Operand::Number(bits),
    })
}

fn low_byte(to: u32, value: Operand<u32>) -> Line<u32>
    ensures { result ≡ Operate to (Reg LowBits) value (Number 255) }
{
    Line::Operate {
        to,
        operation: Operation::Reg(RegOp::And),
        left: value,
        right: Operand::Number(255),
    }
}

fn push_extend(
    classes: &[Class],
    lines: &mut Seq<Line<u32>>,
    to: u32,
    extension: Extension,
    value: Operand<u32>,
) -> Result<(), AllocError>
    ensures { OnOk result (lines.new ≡ lines.old ++ extend_lines (listed classes.now) to extension value) }
{
    match extension {
        Extension::SignedWord => lines.push(word_of(classes, to, value)),
        Extension::UnsignedWord => push_shifted(lines, to, RegOp::Srl, 32, value),
        Extension::SignedHalf => push_shifted(lines, to, RegOp::Sra, 48, value),
        Extension::UnsignedHalf => push_shifted(lines, to, RegOp::Srl, 48, value),
        Extension::SignedByte => push_shifted(lines, to, RegOp::Sra, 56, value),
        Extension::UnsignedByte => lines.push(low_byte(to, value)),
    }
}

/// The load of that extension. Into a word it may as well extend by the sign.
fn load_of(extension: Extension, class: Class) -> LoadOp
    ensures { result ≡ load_of extension class }
{
    match extension {
        Extension::SignedWord => LoadOp::Lw,
        Extension::UnsignedWord => match class {
            Class::W => LoadOp::Lw,
            Class::L => LoadOp::Lwu,
        },
        Extension::SignedHalf => LoadOp::Lh,
        Extension::UnsignedHalf => LoadOp::Lhu,
        Extension::SignedByte => LoadOp::Lb,
        Extension::UnsignedByte => LoadOp::Lbu,
    }
}

/// Puts the lines of an operation on one operand behind the others.
pub(crate) fn push_unary(
    classes: &[Class],
    lines: &mut Seq<Line<u32>>,
    to: u32,
    op: UnaryOp,
    class: Class,
    value: Operand<u32>,
) -> Result<(), AllocError>
    ensures { OnOk result (lines.new ≡ lines.old ++ unary_lines (listed classes.now) to op class value) }
{
    match op {
        UnaryOp::Neg => lines.push(negate(to, class, value)),
        UnaryOp::Copy => lines.push(copy(classes, to, class, value)),
        UnaryOp::Extend(extension) => push_extend(classes, lines, to, extension, value),
        UnaryOp::LoadLong => lines.push(Line::Load {
            to,
            op: LoadOp::Ld,
            at: Address::at_once(value),
        }),
        UnaryOp::Load(extension) => lines.push(Line::Load {
            to,
            op: load_of(extension, class),
            at: Address::at_once(value),
        }),
    }
}

fn word_operation(op: BinaryOp) -> Operation
    ensures { result ≡ operation_of op InWord }
{
    match op {
        BinaryOp::Add => Operation::RegW(RegWOp::Addw),
        BinaryOp::Sub => Operation::RegW(RegWOp::Subw),
        BinaryOp::Mul => Operation::RegW(RegWOp::Mulw),
        BinaryOp::And => Operation::Reg(RegOp::And),
        BinaryOp::Or => Operation::Reg(RegOp::Or),
        BinaryOp::Xor => Operation::Reg(RegOp::Xor),
        BinaryOp::Div => Operation::RegW(RegWOp::Divw),
        BinaryOp::Rem => Operation::RegW(RegWOp::Remw),
        BinaryOp::Udiv => Operation::RegW(RegWOp::Divuw),
        BinaryOp::Urem => Operation::RegW(RegWOp::Remuw),
        BinaryOp::Sar => Operation::RegW(RegWOp::Sraw),
        BinaryOp::Shr => Operation::RegW(RegWOp::Srlw),
        BinaryOp::Shl => Operation::RegW(RegWOp::Sllw),
        BinaryOp::Compare(on, of) => Operation::Compare(on, of),
    }
}

fn long_operation(op: BinaryOp) -> Operation
    ensures { result ≡ operation_of op InLong }
{
    match op {
        BinaryOp::Add => Operation::Reg(RegOp::Add),
        BinaryOp::Sub => Operation::Reg(RegOp::Sub),
        BinaryOp::Mul => Operation::Reg(RegOp::Mul),
        BinaryOp::And => Operation::Reg(RegOp::And),
        BinaryOp::Or => Operation::Reg(RegOp::Or),
        BinaryOp::Xor => Operation::Reg(RegOp::Xor),
        BinaryOp::Div => Operation::Reg(RegOp::Div),
        BinaryOp::Rem => Operation::Reg(RegOp::Rem),
        BinaryOp::Udiv => Operation::Reg(RegOp::Divu),
        BinaryOp::Urem => Operation::Reg(RegOp::Remu),
        BinaryOp::Sar => Operation::Reg(RegOp::Sra),
        BinaryOp::Shr => Operation::Reg(RegOp::Srl),
        BinaryOp::Shl => Operation::Reg(RegOp::Sll),
        BinaryOp::Compare(on, of) => Operation::Compare(on, of),
    }
}

fn operation_of(op: BinaryOp, class: Class) -> Operation
    ensures { result ≡ operation_of op class }
{
    match class {
        Class::W => word_operation(op),
        Class::L => long_operation(op),
    }
}

/// Puts the lines of an operation on all bits of two words behind the others. Of two that stand sign-extended the result does, of any others its low 32 bits
/// are put in its place.
fn push_bits(
    classes: &[Class],
    lines: &mut Seq<Line<u32>>,
    to: u32,
    op: RegOp,
    left: Operand<u32>,
    right: Operand<u32>,
) -> Result<(), AllocError>
    ensures { OnOk result (lines.new ≡ lines.old ++ bit_lines (listed classes.now) to op left right) }
{
    let operation = Operation::Reg(op);
    if is_whole(classes, &left) && is_whole(classes, &right) {
        lines.push(Line::Operate {
            to,
            operation,
            left: word(left),
            right: word(right),
        })
    } else {
        lines.push(Line::Operate {
            to,
            operation,
            left,
            right,
        })?;
        lines.push(as_word(to, Operand::At(to)))
    }
}

/// What a comparison gives.
fn compare(to: u32, of: Comparison<u32>) -> Line<u32>
    ensures { result ≡ compare_line to of }
{
    Line::Operate {
        to,
        operation: Operation::Compare(of.condition, of.class),
        left: of.left,
        right: of.right,
    }
}

/// Puts the lines of an operation on two operands behind the others.
pub(crate) fn push_binary(
    classes: &[Class],
    lines: &mut Seq<Line<u32>>,
    to: u32,
    op: BinaryOp,
    class: Class,
    left: Operand<u32>,
    right: Operand<u32>,
) -> Result<(), AllocError>
    ensures { OnOk result (lines.new ≡ lines.old ++ binary_lines (listed classes.now) to op class left right) }
{
    match (op, class) {
        (BinaryOp::And, Class::W) => push_bits(classes, lines, to, RegOp::And, left, right),
        (BinaryOp::Or, Class::W) => push_bits(classes, lines, to, RegOp::Or, left, right),
        (BinaryOp::Xor, Class::W) => push_bits(classes, lines, to, RegOp::Xor, left, right),
        (BinaryOp::Compare(on, of), _) => {
            lines.push(compare(to, comparison(classes, on, of, left, right)))
        }
        _ => lines.push(Line::Operate {
            to,
            operation: operation_of(op, class),
            left,
            right,
        }),
    }
}
