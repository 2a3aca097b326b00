//! What lines and jumps cost, and whether the ticks of a block pay for it.
ghost use Rattle.std.specs.Prelude.{◌≡◌, ◌≤◌, ◌+◌, ◌<◌, ◌^◌, IfSome};
ghost use Rattle.vcode.specs.Prelude.{is_immediate, operand_cost, operation_cost, branch_cost, line_cost, jump_cost, affords, is_paid, spent};

use crate::code::Block;
use crate::line::{Jump, Line, Operation};
use crate::place::Operand;
use il_ast::Class;

/// Whether one immediate of 12 bits with a sign gives the number.
pub fn is_immediate(number: u64) -> bool
    ensures { result ≡ is_immediate number }
{
    number < 2048 || number >= 0xffff_ffff_ffff_f800
}

fn operand_cost<P>(operand: &Operand<P>) -> u128
    ensures cost { result ≡ operand_cost operand.now }
    ensures small { result ≤ 9 }
{
    match operand {
        Operand::At(_) => 3,
        Operand::Number(number) => { if is_immediate(*number) { 1 } else { 9 } }
        Operand::Name(_) => 2,
    }
}

fn operation_cost(operation: Operation) -> u128
    ensures cost { result ≡ operation_cost operation }
    ensures small { result ≤ 6 }
{
    match operation {
        Operation::Reg(_) => 1,
        Operation::RegW(_) => 1,
        Operation::Compare(_, _) => 6,
    }
}

/// At most how many instructions of the machine the line becomes, wherever its places are.
pub fn line_cost<P>(line: &Line<P>) -> u128
    ensures { result ≡ line_cost line.now }
{
    match line {
        Line::Tick { .. } => 0,
        Line::Set { value, .. } => operand_cost(value) + 3,
        Line::Operate {
            operation,
            left,
            right,
            ..
        } => operand_cost(left) + operand_cost(right) + operation_cost(*operation) + 3,
        Line::Load { at, .. } => operand_cost(&at.base) + 4,
        Line::Store { value, at, .. } => operand_cost(value) + operand_cost(&at.base) + 1,
        Line::Alloc { .. } => 6,
        Line::Blit { from, to, count } => {
            operand_cost(from) + operand_cost(to) + 8 * ((u128::from(*count) + 7) / 8)
        }
        Line::Call { args, .. } => 20 + 24 * (args.len() as u128),
    }
}

fn branch_cost(class: Class) -> u128
    ensures cost { result ≡ branch_cost class }
    ensures small { result ≤ 9 }
{
    match class {
        Class::W => 7,
        Class::L => 5,
    }
}

fn jump_cost<P>(jump: &Jump<P>) -> u128
    ensures { result ≡ jump_cost jump.now }
{
    match jump {
        Jump::Goto(_) => 2,
        Jump::Branch { on, .. } => {
            operand_cost(&on.left) + operand_cost(&on.right) + branch_cost(on.class)
        }
        Jump::Return(None) => 2,
        Jump::Return(Some(returned)) => operand_cost(&returned.value) + 3,
        Jump::Halt => 1,
    }
}

/// What is left of a credit after a line, if it affords that. A unit of weight pays for 32 instructions.
fn spend<P>(credit: u128, line: &Line<P>) -> Option<u128>
    requires { credit + 2 ^ 37 < 2 ^ 128 }
    ensures spent { result ≡ spent credit line.now }
    ensures small { IfSome result (λ left. left ≤ credit + 2 ^ 37) }
{
    match line {
        Line::Tick { weight, .. } => Some(credit + 32 * u128::from(*weight)),
        _ => credit.checked_sub(line_cost(line)),
    }
}

/// Whether the lines pay for themselves, each by the ticks before it, and then for the jump.
pub fn affords<P>(lines: &[Line<P>], jump: &Jump<P>) -> bool
    ensures { result ≡ affords 0 jump.now lines.now }
{
    let mut credit = 0u128;
    for line in lines {
        match spend(credit, line) {
            Some(left) => credit = left,
            None => return false,
        }
    }
    jump_cost(jump) <= credit
}

/// Whether the ticks of the block pay for its lines and its jump.
pub fn is_paid<P>(block: &Block<P>) -> bool
    ensures { result ≡ is_paid block.now }
{
    affords(block.lines.as_slice(), &block.jump)
}
