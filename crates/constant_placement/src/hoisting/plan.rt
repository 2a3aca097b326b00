//! Which constant stands in which register, and where.
ghost use Rattle.std.specs.Prelude.{◌≡◌, false, slice_index_or};
ghost use Rattle.constant_placement.specs.Held.{operand_of, is_it, is_held, is_set};

use il_ast::Symbol;
use vcode::Operand;

/// A constant that takes instructions where it is an operand.
#[derive(Clone, Copy)]
pub enum Constant {
    /// an integer modulo 2^64
    Number(u64),
    /// the value of a global name
    Name(Symbol),
}

impl Constant {
    /// The operand that it is.
    pub fn operand(self) -> Operand<u32>
        ensures { result ≡ operand_of self }
    {
        match self {
            Constant::Number(number) => Operand::Number(number),
            Constant::Name(name) => Operand::Name(name),
        }
    }

    /// Whether the operand is this constant.
    pub fn is_it(self, operand: &Operand<u32>) -> bool
        ensures { result ≡ is_it self operand.now }
    {
        match self {
            Constant::Number(number) => match operand {
                Operand::Number(other) => number == *other,
                _ => false,
            },
            Constant::Name(name) => match operand {
                Operand::Name(other) => name.number() == other.number(),
                _ => false,
            },
        }
    }
}

/// A constant, the register that is to hold it, and by the numbers of blocks where. A block past the end neither sets nor holds it.
#[derive(Drop)]
pub struct Plan {
    pub register: u32,
    pub constant: Constant,
    /// the blocks that set the register right before their jump
    pub sets: Vec<bool>,
    /// the blocks in which it holds the constant from their beginning to their jump
    pub holds: Vec<bool>,
}

fn has(marks: &[bool], block: usize) -> bool
    ensures { result ≡ slice_index_or marks.now block false }
{
    match marks.get(block) {
        Some(mark) => *mark,
        None => false,
    }
}

impl Plan {
    /// Whether the register holds the constant in a block.
    pub fn is_held(&self, block: usize) -> bool
        ensures { result ≡ is_held self.now block }
    {
        has(self.holds.as_slice(), block)
    }

    /// Whether a block sets the register.
    pub fn is_set(&self, block: usize) -> bool
        ensures { result ≡ is_set self.now block }
    {
        has(self.sets.as_slice(), block)
    }
}
