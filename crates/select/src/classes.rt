//! The class of each temporary of a function without phis, in a table.
ghost use Rattle.std.specs.Prelude.{◌≡◌, ◌<◌, ◌+◌, ◌++◌, ◌&&◌, ℕ, nat_eq, if◌then◌else◌, length, map, IfOk, OnOk, flat_map};
ghost use Rattle.il_ast.specs.declared.block.Phi.{Phi as PhiOf};
ghost use Rattle.il_ast.specs.declared.operation.Class.TheVariants.{W};
ghost use Rattle.il_ast.specs.Prelude.{phi_count, same_class};
ghost use Rattle.select.specs.Selected.{classes_in};
ghost use Rattle.select.specs.Narrow.{listed, destinations_in, param_destination, phi_destination, item_destinations, inst_destinations, block_destinations, has_word, word_or_long, phi_classes};

use il_ast::{Block, Class, Dest, Func, Inst, Lined, Param, Phi, Seq};
use std::alloc::{AllocError, Global};

fn collect_params(assigned: &mut Seq<Dest>, params: &[Param]) -> Result<(), AllocError>
    ensures { OnOk result (assigned.new ≡ assigned.old ++ map param_destination params.now) }
{
    for param in params {
        assigned.push(Dest {
            temp: param.temp,
            class: param.class,
        })?;
    }
    Ok(())
}

fn collect_phis(assigned: &mut Seq<Dest>, phis: &[Phi]) -> Result<(), AllocError>
    ensures { OnOk result (assigned.new ≡ assigned.old ++ map phi_destination phis.now) }
{
    for phi in phis {
        assigned.push(phi.to)?;
    }
    Ok(())
}

fn collect_inst(assigned: &mut Seq<Dest>, inst: &Inst) -> Result<(), AllocError>
    ensures { OnOk result (assigned.new ≡ assigned.old ++ item_destinations inst.now) }
{
    match inst {
        Inst::Unary { to, .. } => assigned.push(*to),
        Inst::Binary { to, .. } => assigned.push(*to),
        Inst::Alloc { to, .. } => assigned.push(*to),
        Inst::Call { to: Some(to), .. } => assigned.push(*to),
        _ => Ok(()),
    }
}

fn collect_insts(assigned: &mut Seq<Dest>, insts: &[Lined<Inst>]) -> Result<(), AllocError>
    ensures { OnOk result (assigned.new ≡ assigned.old ++ flat_map inst_destinations insts.now) }
{
    for inst in insts {
        collect_inst(assigned, &inst.item)?;
    }
    Ok(())
}

fn collect_blocks(assigned: &mut Seq<Dest>, blocks: &[Block]) -> Result<(), AllocError>
    ensures { OnOk result (assigned.new ≡ assigned.old ++ flat_map block_destinations blocks.now) }
{
    for block in blocks {
        collect_phis(assigned, block.phis.as_slice())?;
        collect_insts(assigned, block.insts.as_slice())?;
    }
    Ok(())
}

/// What parameters, phis and instructions assign.
fn destinations(alloc: Global, func: &Func) -> Result<Seq<Dest>, AllocError>
    ensures { IfOk result (λ assigned. assigned ≡ destinations_in func.now) }
{
    let mut assigned = Seq::new(alloc);
    collect_params(&mut assigned, func.params.as_slice())?;
    collect_blocks(&mut assigned, func.blocks.as_slice())?;
    Ok(assigned)
}

/// Notes that a temporary is assigned as a word, if it is.
fn mark_word(table: &mut [Class], to: &Dest)
    ensures length { length table.new ≡ length table.old }
    ensures entries { (t : ℕ) → t < length table.old → listed table.new t ≡ (if nat_eq to.now.temp t && same_class to.now.class W then W else listed table.old t) }
{
    let number = to.temp.number();
    if to.class == Class::W && number < table.len() {
        table[number] = Class::W;
    }
}

fn mark_words(table: &mut [Class], assigned: &[Dest])
    ensures length { length table.new ≡ length table.old }
    ensures entries { (t : ℕ) → t < length table.old → listed table.new t ≡ (if has_word t assigned.now then W else listed table.old t) }
{
    for to in assigned {
        mark_word(table, to);
    }
}

/// The classes of so many temporaries: a word where it is assigned as one.
fn assigned_classes(
    alloc: Global,
    temps: usize,
    assigned: &[Dest],
) -> Result<Vec<Class>, AllocError>
    ensures length { IfOk result (λ table. length table.items ≡ temps) }
    ensures entries { IfOk result (λ table. (t : ℕ) → t < temps → listed table.items t ≡ word_or_long (has_word t assigned.now)) }
{
    let mut table = vec![in alloc; Class::L; temps]?;
    mark_words(table.as_mut_slice(), assigned);
    Ok(table)
}

fn push_classes(table: &mut Seq<Class>, phis: &[Phi]) -> Result<(), AllocError>
    ensures { OnOk result (table.new ≡ table.old ++ map (λ (p : PhiOf). p.to.class) phis.now) }
{
    for phi in phis {
        table.push(phi.to.class)?;
    }
    Ok(())
}

/// Puts the classes of the phis' own temporaries behind the others.
fn push_phi_classes(table: &mut Seq<Class>, blocks: &[Block]) -> Result<(), AllocError>
    ensures { OnOk result (table.new ≡ table.old ++ flat_map phi_classes blocks.now) }
{
    for block in blocks {
        push_classes(table, block.phis.as_slice())?;
    }
    Ok(())
}

/// The classes of a function's temporaries.
fn own_classes(alloc: Global, func: &Func) -> Result<Vec<Class>, AllocError>
    ensures length { IfOk result (λ table. length table.items ≡ length func.now.temps) }
    ensures entries { IfOk result (λ table. (t : ℕ) → t < length func.now.temps → listed table.items t ≡ word_or_long (has_word t (destinations_in func.now))) }
{
    let assigned = destinations(alloc, func)?;
    assigned_classes(alloc, func.temps.len(), assigned.as_slice())
}

/// The class of each temporary of a function, and behind them that of each phi's own temporary.
pub(crate) fn classes(alloc: Global, func: &Func) -> Result<Seq<Class>, AllocError>
    ensures length { IfOk result (λ table. length table ≡ length func.now.temps + phi_count func.now) }
    ensures entries { IfOk result (λ table. (t : ℕ) → listed table t ≡ classes_in func.now t) }
{
    let own = own_classes(alloc, func)?;
    let mut table = Seq::from_vec(own);
    push_phi_classes(&mut table, func.blocks.as_slice())?;
    Ok(table)
}
