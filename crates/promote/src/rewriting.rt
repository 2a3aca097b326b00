//! Blocks in which temporaries are promoted.
ghost use Rattle.std.specs.Prelude.{◌≡◌, map, IfOk};
ghost use Rattle.promote.specs.Uses.{storing, extending, loading, made_in, promoted_store, promoted_unary, promoted, promoted_line, promoted_block, widths_by};

use crate::standing::{Standing, width_at};
use il_ast::{
    Alignment, Block, Class, Dest, Extension, Few, Inst, Jump, Lined, Phi, Seq, Size, UnaryOp, Val,
};
use std::alloc::{AllocError, Global};

/// The blocks in which the temporaries of the table are promoted.
pub fn promoted_blocks(
    alloc: Global,
    table: &[Standing],
    blocks: &[Block],
) -> Result<Seq<Block>, AllocError>
    ensures { IfOk result (λ now. now ≡ map (promoted_block (widths_by table.now)) blocks.now) }
{
    let mut now = Vec::with_capacity(alloc, blocks.len())?;
    for block in blocks {
        now.push(promoted_block(alloc, table, block)?)?;
    }
    Ok(Seq::from_vec(now))
}

fn promoted_block(alloc: Global, table: &[Standing], block: &Block) -> Result<Block, AllocError>
    ensures { IfOk result (λ now. now ≡ promoted_block (widths_by table.now) block.now) }
{
    let phis = copied_phis(alloc, block.phis.as_slice())?;
    let insts = promoted_insts(alloc, table, block.insts.as_slice())?;
    Ok(Block {
        line: block.line,
        label: block.label,
        phis,
        insts,
        jump: copied_jump(&block.jump),
    })
}

fn copied_jump(jump: &Option<Lined<Jump>>) -> Option<Lined<Jump>>
    ensures { result ≡ jump.now }
{
    match jump {
        Some(jump) => Some(Lined {
            line: jump.line,
            item: jump.item,
        }),
        None => None,
    }
}

fn copied_phis(alloc: Global, phis: &[Phi]) -> Result<Seq<Phi>, AllocError>
    ensures { IfOk result (λ copy. copy ≡ phis.now) }
{
    let mut copy = Vec::with_capacity(alloc, phis.len())?;
    for phi in phis {
        copy.push(Phi {
            line: phi.line,
            to: phi.to,
            args: Few::from_slice(alloc, phi.args.as_slice())?,
        })?;
    }
    Ok(Seq::from_vec(copy))
}

fn promoted_insts(
    alloc: Global,
    table: &[Standing],
    insts: &[Lined<Inst>],
) -> Result<Seq<Lined<Inst>>, AllocError>
    ensures { IfOk result (λ now. now ≡ map (promoted_line (widths_by table.now)) insts.now) }
{
    let mut now = Vec::with_capacity(alloc, insts.len())?;
    for inst in insts {
        now.push(Lined {
            line: inst.line,
            item: promoted(alloc, table, &inst.item)?,
        })?;
    }
    Ok(Seq::from_vec(now))
}

/// The instruction, in which a load, a store or an alloc of a promoted temporary is a copy or an extension.
fn promoted(alloc: Global, table: &[Standing], inst: &Inst) -> Result<Inst, AllocError>
    ensures { IfOk result (λ now. now ≡ promoted (widths_by table.now) inst.now) }
{
    Ok(match inst {
        Inst::Unary { to, op, value } => promoted_unary(table, *to, *op, *value),
        Inst::Binary {
            to,
            op,
            left,
            right,
        } => Inst::Binary {
            to: *to,
            op: *op,
            left: *left,
            right: *right,
        },
        Inst::Alloc {
            to,
            alignment,
            size,
        } => made_in(table, *to, *alignment, *size),
        Inst::Store { size, value, at } => promoted_store(table, *size, *value, *at),
        Inst::Blit { from, to, count } => Inst::Blit {
            from: *from,
            to: *to,
            count: *count,
        },
        Inst::Call { to, callee, args } => Inst::Call {
            to: *to,
            callee: *callee,
            args: Few::from_slice(alloc, args.as_slice())?,
        },
    })
}

/// A promoted temporary has no block of memory, and begins as 0.
fn made_in(table: &[Standing], to: Dest, alignment: Alignment, size: u64) -> Inst
    ensures { result ≡ made_in (widths_by table.now to.temp) to alignment size }
{
    match width_at(table, to.temp.number()) {
        Some(_) => Inst::Unary {
            to,
            op: UnaryOp::Copy,
            value: Val::Int(0),
        },
        None => Inst::Alloc {
            to,
            alignment,
            size,
        },
    }
}

fn promoted_unary(table: &[Standing], to: Dest, op: UnaryOp, value: Val) -> Inst
    ensures { result ≡ promoted_unary (widths_by table.now) to op value }
{
    match value {
        Val::Temp(temp) => match width_at(table, temp.number()) {
            Some(_) => Inst::Unary {
                to,
                op: loading(op, to.class),
                value,
            },
            None => Inst::Unary { to, op, value },
        },
        _ => Inst::Unary { to, op, value },
    }
}

fn promoted_store(table: &[Standing], size: Size, value: Val, at: Val) -> Inst
    ensures { result ≡ promoted_store (widths_by table.now) size value at }
{
    match at {
        Val::Temp(temp) => match width_at(table, temp.number()) {
            Some(_) => Inst::Unary {
                to: Dest {
                    temp,
                    class: Class::L,
                },
                op: storing(size),
                value,
            },
            None => Inst::Store { size, value, at },
        },
        _ => Inst::Store { size, value, at },
    }
}

/// What stands in the place of a store.
fn storing(size: Size) -> UnaryOp
    ensures { result ≡ storing size }
{
    match size {
        Size::Byte => UnaryOp::Extend(Extension::UnsignedByte),
        Size::Half => UnaryOp::Extend(Extension::UnsignedHalf),
        Size::Word => UnaryOp::Extend(Extension::SignedWord),
        Size::Long => UnaryOp::Copy,
    }
}

/// What stands in the place of a load.
fn loading(op: UnaryOp, class: Class) -> UnaryOp
    ensures { result ≡ loading op class }
{
    match op {
        UnaryOp::LoadLong => UnaryOp::Copy,
        UnaryOp::Load(extension) => extending(extension, class),
        _ => op,
    }
}

fn extending(extension: Extension, class: Class) -> UnaryOp
    ensures { result ≡ extending extension class }
{
    match (extension, class) {
        (Extension::SignedWord, Class::W) | (Extension::UnsignedWord, Class::W) => UnaryOp::Copy,
        _ => UnaryOp::Extend(extension),
    }
}
