//! The operands of a function, in the order of the text.
ghost use Rattle.std.specs.Prelude.{◌≡◌, ◌++◌, OnOk, IfOk, flat_map};
ghost use Rattle.il_types.specs.Prelude.{operand_at, phi_operands, arg_operands, inst_operands, end_operands, block_operands, operands_of};

use crate::classes::{left_class, operand_class, right_class, stored_class};
use crate::site::Operand;
use il_ast::{Arg, Block, Class, Func, Inst, Jump, Lined, Phi, Val};
use std::alloc::{AllocError, Global};

/// A function's operands but for the values that it returns.
pub fn operands(alloc: Global, function: &Func) -> Result<Vec<Operand>, AllocError>
    ensures { IfOk result (λ found. found.items ≡ operands_of function.now) }
{
    let mut found = Vec::with_capacity(alloc, function.temps.len().saturating_mul(2))?;
    let blocks = function.blocks.as_slice();
    for block in blocks {
        collect_block(block, &mut found)?;
    }
    Ok(found)
}

fn collect_block(block: &Block, found: &mut Vec<Operand>) -> Result<(), AllocError>
    ensures { OnOk result (found.new.items ≡ found.old.items ++ block_operands block.now) }
{
    collect_phis(block.phis.as_slice(), found)?;
    collect_insts(block.insts.as_slice(), found)?;
    collect_end(&block.jump, found)?;
    Ok(())
}

fn collect_phis(phis: &[Phi], found: &mut Vec<Operand>) -> Result<(), AllocError>
    ensures { OnOk result (found.new.items ≡ found.old.items ++ flat_map phi_operands phis.now) }
{
    for phi in phis {
        collect_phi(phi, found)?;
    }
    Ok(())
}

fn collect_phi(phi: &Phi, found: &mut Vec<Operand>) -> Result<(), AllocError>
    ensures { OnOk result (found.new.items ≡ found.old.items ++ phi_operands phi.now) }
{
    let args = phi.args.as_slice();
    for arg in args {
        found.push(operand(phi.line, phi.to.class, arg.value))?;
    }
    Ok(())
}

fn collect_insts(insts: &[Lined<Inst>], found: &mut Vec<Operand>) -> Result<(), AllocError>
    ensures { OnOk result (found.new.items ≡ found.old.items ++ flat_map inst_operands insts.now) }
{
    for inst in insts {
        collect_inst(inst, found)?;
    }
    Ok(())
}

fn collect_inst(inst: &Lined<Inst>, found: &mut Vec<Operand>) -> Result<(), AllocError>
    ensures { OnOk result (found.new.items ≡ found.old.items ++ inst_operands inst.now) }
{
    let line = inst.line;
    match &inst.item {
        Inst::Unary { to, op, value } => {
            found.push(operand(line, operand_class(*op, to.class), *value))?;
        }
        Inst::Binary {
            to,
            op,
            left,
            right,
        } => {
            found.push(operand(line, left_class(*op, to.class), *left))?;
            found.push(operand(line, right_class(*op, to.class), *right))?;
        }
        Inst::Alloc { .. } => {}
        Inst::Store { size, value, at } => {
            found.push(operand(line, stored_class(*size), *value))?;
            found.push(operand(line, Class::L, *at))?;
        }
        Inst::Blit { from, to, count: _ } => {
            found.push(operand(line, Class::L, *from))?;
            found.push(operand(line, Class::L, *to))?;
        }
        Inst::Call {
            to: _,
            callee,
            args,
        } => {
            found.push(operand(line, Class::L, *callee))?;
            collect_args(line, args.as_slice(), found)?;
        }
    }
    Ok(())
}

fn collect_args(line: usize, args: &[Arg], found: &mut Vec<Operand>) -> Result<(), AllocError>
    ensures { OnOk result (found.new.items ≡ found.old.items ++ arg_operands line args.now) }
{
    for arg in args {
        found.push(operand(line, arg.class, arg.value))?;
    }
    Ok(())
}

fn collect_end(jump: &Option<Lined<Jump>>, found: &mut Vec<Operand>) -> Result<(), AllocError>
    ensures { OnOk result (found.new.items ≡ found.old.items ++ end_operands jump.now) }
{
    if let Some(jump) = jump {
        if let Jump::Branch { on, .. } = jump.item {
            found.push(operand(jump.line, Class::W, on))?;
        }
    }
    Ok(())
}

fn operand(line: usize, class: Class, value: Val) -> Operand
    ensures { result ≡ operand_at line class value }
{
    Operand { line, class, value }
}
