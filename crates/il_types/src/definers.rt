//! The places of a function, each in one list, in the order of the text.
ghost use Rattle.std.specs.Prelude.{◌≡◌, ◌++◌, OnOk, IfOk, flat_map};
ghost use Rattle.il_ast.specs.Prelude.{operand_class, left_class, right_class, stored_class};
ghost use Rattle.il_types.specs.Prelude.{param_definers, definer, phi_definers, inst_definers, block_definers, definers_of};

use crate::site::Definer;
use il_ast::{Block, Dest, Func, Inst, Lined, Param, Phi};
use std::alloc::{AllocError, Global};

/// Where a function's temporaries are assigned.
pub fn definers(alloc: Global, function: &Func) -> Result<Vec<Definer>, AllocError>
    ensures { IfOk result (λ found. found.items ≡ definers_of function.now) }
{
    let mut found = Vec::with_capacity(alloc, function.temps.len())?;
    collect_params(function.params.as_slice(), &mut found)?;
    collect_blocks(function.blocks.as_slice(), &mut found)?;
    Ok(found)
}

fn collect_params(params: &[Param], found: &mut Vec<Definer>) -> Result<(), AllocError>
    ensures { OnOk result (found.new.items ≡ found.old.items ++ flat_map param_definers params.now) }
{
    for param in params {
        let to = Dest {
            temp: param.temp,
            class: param.class,
        };
        found.push(definer(param.line, to))?;
    }
    Ok(())
}

fn collect_blocks(blocks: &[Block], found: &mut Vec<Definer>) -> Result<(), AllocError>
    ensures { OnOk result (found.new.items ≡ found.old.items ++ flat_map block_definers blocks.now) }
{
    for block in blocks {
        collect_phis(block.phis.as_slice(), found)?;
        collect_insts(block.insts.as_slice(), found)?;
    }
    Ok(())
}

fn collect_phis(phis: &[Phi], found: &mut Vec<Definer>) -> Result<(), AllocError>
    ensures { OnOk result (found.new.items ≡ found.old.items ++ flat_map phi_definers phis.now) }
{
    for phi in phis {
        found.push(definer(phi.line, phi.to))?;
    }
    Ok(())
}

fn collect_insts(insts: &[Lined<Inst>], found: &mut Vec<Definer>) -> Result<(), AllocError>
    ensures { OnOk result (found.new.items ≡ found.old.items ++ flat_map inst_definers insts.now) }
{
    for inst in insts {
        collect_inst(inst, found)?;
    }
    Ok(())
}

fn collect_inst(inst: &Lined<Inst>, found: &mut Vec<Definer>) -> Result<(), AllocError>
    ensures { OnOk result (found.new.items ≡ found.old.items ++ inst_definers inst.now) }
{
    let line = inst.line;
    match &inst.item {
        Inst::Unary { to, .. } => found.push(definer(line, *to))?,
        Inst::Binary { to, .. } => found.push(definer(line, *to))?,
        Inst::Alloc { to, .. } => found.push(definer(line, *to))?,
        Inst::Call { to: Some(to), .. } => found.push(definer(line, *to))?,
        _ => {}
    }
    Ok(())
}

fn definer(line: usize, to: Dest) -> Definer
    ensures { result ≡ definer line to }
{
    Definer {
        line,
        temp: to.temp,
        class: to.class,
    }
}
