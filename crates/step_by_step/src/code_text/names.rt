//! Operations by name.
use il_ast::{Class, Condition, Size};
use rv_isa::text::{load_name, reg_name, regw_name};
use rv_isa::{LoadOp, RegOp, RegWOp};
use std::fmt;
use vcode::Operation;

fn register_op(word: &str) -> Option<RegOp> {
    let ops = [
        RegOp::Add,
        RegOp::Sub,
        RegOp::Sll,
        RegOp::Slt,
        RegOp::Sltu,
        RegOp::Xor,
        RegOp::Srl,
        RegOp::Sra,
        RegOp::Or,
        RegOp::And,
        RegOp::Mul,
        RegOp::Mulh,
        RegOp::Mulhsu,
        RegOp::Mulhu,
        RegOp::Div,
        RegOp::Divu,
        RegOp::Rem,
        RegOp::Remu,
    ];
    ops.iter().copied().find(|op| reg_name(*op) == word)
}

fn word_op(word: &str) -> Option<RegWOp> {
    let ops = [
        RegWOp::Addw,
        RegWOp::Subw,
        RegWOp::Sllw,
        RegWOp::Srlw,
        RegWOp::Sraw,
        RegWOp::Mulw,
        RegWOp::Divw,
        RegWOp::Divuw,
        RegWOp::Remw,
        RegWOp::Remuw,
    ];
    ops.iter().copied().find(|op| regw_name(*op) == word)
}

pub(crate) fn load_op(word: &str) -> Option<LoadOp> {
    let ops = [
        LoadOp::Lb,
        LoadOp::Lh,
        LoadOp::Lw,
        LoadOp::Ld,
        LoadOp::Lbu,
        LoadOp::Lhu,
        LoadOp::Lwu,
    ];
    ops.iter().copied().find(|op| load_name(*op) == word)
}

pub(crate) fn store_name(size: Size) -> &'static str {
    match size {
        Size::Byte => "storeb",
        Size::Half => "storeh",
        Size::Word => "storew",
        Size::Long => "storel",
    }
}

pub(crate) fn store_size(word: &str) -> Option<Size> {
    let sizes = [Size::Byte, Size::Half, Size::Word, Size::Long];
    sizes.iter().copied().find(|size| store_name(*size) == word)
}

pub(crate) fn class_name(class: Class) -> &'static str {
    match class {
        Class::W => "w",
        Class::L => "l",
    }
}

/// The class that a word names.
pub(crate) fn class_of(word: &str) -> Option<Class> {
    let classes = [Class::W, Class::L];
    classes
        .iter()
        .copied()
        .find(|class| class_name(*class) == word)
}

fn condition_name(condition: Condition) -> &'static str {
    match condition {
        Condition::Equal => "ceq",
        Condition::NotEqual => "cne",
        Condition::SignedLessEqual => "csle",
        Condition::SignedLess => "cslt",
        Condition::SignedGreaterEqual => "csge",
        Condition::SignedGreater => "csgt",
        Condition::UnsignedLessEqual => "cule",
        Condition::UnsignedLess => "cult",
        Condition::UnsignedGreaterEqual => "cuge",
        Condition::UnsignedGreater => "cugt",
    }
}

/// The comparison that a word names.
pub(crate) fn comparison_of(word: &str) -> Option<(Condition, Class)> {
    for condition in [
        Condition::Equal,
        Condition::NotEqual,
        Condition::SignedLessEqual,
        Condition::SignedLess,
        Condition::SignedGreaterEqual,
        Condition::SignedGreater,
        Condition::UnsignedLessEqual,
        Condition::UnsignedLess,
        Condition::UnsignedGreaterEqual,
        Condition::UnsignedGreater,
    ] {
        if let Some(class) = word.strip_prefix(condition_name(condition)) {
            return Some((condition, class_of(class)?));
        }
    }
    None
}

/// The operation that a word names.
pub(crate) fn operation_of(word: &str) -> Option<Operation> {
    if let Some(op) = register_op(word) {
        return Some(Operation::Reg(op));
    }
    if let Some(op) = word_op(word) {
        return Some(Operation::RegW(op));
    }
    let (condition, class) = comparison_of(word)?;
    Some(Operation::Compare(condition, class))
}

/// The word that names an operation.
#[derive(Clone, Copy)]
pub(crate) struct Named(pub Operation);

impl fmt::Display for Named {
    fn fmt<W: fmt::Write>(&self, f: &mut fmt::Formatter<W>) -> fmt::Result {
        let Named(operation) = *self;
        match operation {
            Operation::Reg(op) => write!(f, "{}", reg_name(op)),
            Operation::RegW(op) => write!(f, "{}", regw_name(op)),
            Operation::Compare(condition, class) => {
                write!(f, "{}{}", condition_name(condition), class_name(class))
            }
        }
    }
}
