//! The rules on single instructions: classes of results, alloc in entry, blit size.
ghost use Rattle.std.specs.Prelude.{◌≡◌};
ghost use Rattle.il_ast.specs.declared.instruction.Inst.{Inst as InstOf};
ghost use Rattle.il_ast.specs.declared.instruction.Lined.{Lined as LinedOf};
ghost use Rattle.il_types.specs.Prelude.{when, first, is_long_only, has_wrong_result, in_insts, has_wrong_size, is_alloc, is_long_blit, wrong_alloc, wrong_alloc_in, long_blit};

use crate::labels::or_else;
use il_ast::limits::{ALLOC_BYTES, BLIT_BYTES};
use il_ast::{Block, Class, Extension, Func, Inst, Lined, UnaryOp};

/// The line of a result of a class that its operation hasn't.
pub fn wrong_result(blocks: &[Block]) -> Option<usize>
    ensures { result ≡ in_insts has_wrong_result blocks.now }
{
    for block in blocks {
        if let Some(line) = wrong_result_in(block.insts.as_slice()) {
            return Some(line);
        }
    }
    None
}

fn wrong_result_in(insts: &[Lined<Inst>]) -> Option<usize>
    ensures { result ≡ first (λ (i : LinedOf InstOf). when (has_wrong_result i.item) i.line) insts.now }
{
    for inst in insts {
        if has_wrong_result(&inst.item) {
            return Some(inst.line);
        }
    }
    None
}

fn has_wrong_result(inst: &Inst) -> bool
    ensures { result ≡ has_wrong_result inst.now }
{
    match inst {
        Inst::Unary { to, op, value: _ } => is_long_only(*op) && to.class == Class::W,
        Inst::Alloc { to, .. } => to.class == Class::W,
        _ => false,
    }
}

fn is_long_only(op: UnaryOp) -> bool
    ensures { result ≡ is_long_only op }
{
    match op {
        UnaryOp::Extend(extension) => {
            extension == Extension::SignedWord || extension == Extension::UnsignedWord
        }
        UnaryOp::LoadLong => true,
        UnaryOp::Neg | UnaryOp::Copy | UnaryOp::Load(_) => false,
    }
}

/// The line of an `alloc` outside the first block, or of a size that it may not have.
pub fn wrong_alloc(function: &Func) -> Option<usize>
    ensures { result ≡ wrong_alloc function.now }
{
    match function.blocks.as_slice() {
        [] => None,
        [entry, rest @ ..] => or_else(wrong_size_in(entry.insts.as_slice()), any_alloc(rest)),
    }
}

fn wrong_size_in(insts: &[Lined<Inst>]) -> Option<usize>
    ensures { result ≡ first (λ (i : LinedOf InstOf). when (has_wrong_size i.item) i.line) insts.now }
{
    for inst in insts {
        if has_wrong_size(&inst.item) {
            return Some(inst.line);
        }
    }
    None
}

fn has_wrong_size(inst: &Inst) -> bool
    ensures { result ≡ has_wrong_size inst.now }
{
    match inst {
        Inst::Alloc { size, .. } => *size == 0 || *size > ALLOC_BYTES,
        _ => false,
    }
}

fn any_alloc(blocks: &[Block]) -> Option<usize>
    ensures { result ≡ in_insts is_alloc blocks.now }
{
    for block in blocks {
        if let Some(line) = alloc_in(block.insts.as_slice()) {
            return Some(line);
        }
    }
    None
}

fn alloc_in(insts: &[Lined<Inst>]) -> Option<usize>
    ensures { result ≡ first (λ (i : LinedOf InstOf). when (is_alloc i.item) i.line) insts.now }
{
    for inst in insts {
        if is_alloc(&inst.item) {
            return Some(inst.line);
        }
    }
    None
}

fn is_alloc(inst: &Inst) -> bool
    ensures { result ≡ is_alloc inst.now }
{
    match inst {
        Inst::Alloc { .. } => true,
        _ => false,
    }
}

/// The line of a `blit` of too many bytes.
pub fn long_blit(function: &Func) -> Option<usize>
    ensures { result ≡ long_blit function.now }
{
    let blocks = function.blocks.as_slice();
    for block in blocks {
        if let Some(line) = long_blit_in(block.insts.as_slice()) {
            return Some(line);
        }
    }
    None
}

fn long_blit_in(insts: &[Lined<Inst>]) -> Option<usize>
    ensures { result ≡ first (λ (i : LinedOf InstOf). when (is_long_blit i.item) i.line) insts.now }
{
    for inst in insts {
        if is_long_blit(&inst.item) {
            return Some(inst.line);
        }
    }
    None
}

fn is_long_blit(inst: &Inst) -> bool
    ensures { result ≡ is_long_blit inst.now }
{
    match inst {
        Inst::Blit { count, .. } => *count > BLIT_BYTES,
        _ => false,
    }
}
