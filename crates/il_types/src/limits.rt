//! The limits of one text.
ghost use Rattle.std.specs.Prelude.{◌≡◌};
ghost use Rattle.std.specs.List.{list_all};
ghost use Rattle.il_ast.specs.declared.block.Block.{Block as BlockOf};
ghost use Rattle.il_ast.specs.declared.instruction.Inst.{Inst as InstOf};
ghost use Rattle.il_ast.specs.declared.instruction.Lined.{Lined as LinedOf};
ghost use Rattle.il_types.specs.Prelude.{has_few_args, is_within, definition_within, within_limits};

use crate::cost::{alloc_area, weight};
use il_ast::limits::{ALLOC_BYTES, ARGUMENTS, FUNCTION_WEIGHT, TEMPORARIES, TEXT_BYTES};
use il_ast::{Block, Definition, Func, Inst, Lined, Text};

/// Whether a text passes no limit.
pub fn within_limits(text: &Text) -> bool
    ensures { result ≡ within_limits text.now }
{
    text.bytes <= TEXT_BYTES && all_within(text.definitions.as_slice())
}

fn all_within(definitions: &[Definition]) -> bool
    ensures { result ≡ list_all definition_within definitions.now }
{
    for definition in definitions {
        if !definition_within(definition) {
            return false;
        }
    }
    true
}

fn definition_within(definition: &Definition) -> bool
    ensures { result ≡ definition_within definition.now }
{
    match definition {
        Definition::Function(function) => is_within(function),
        Definition::Object(_) => true,
    }
}

fn is_within(function: &Func) -> bool
    ensures { result ≡ is_within function.now }
{
    let small = weight(function) <= FUNCTION_WEIGHT;
    let temps = function.temps.len() <= TEMPORARIES;
    let params = function.params.len() <= ARGUMENTS;
    let area = alloc_area(function) <= ALLOC_BYTES;
    let args = all_few_args(function.blocks.as_slice());
    small && (temps && (params && (area && args)))
}

fn all_few_args(blocks: &[Block]) -> bool
    ensures { result ≡ list_all (λ (b : BlockOf). list_all (λ (i : LinedOf InstOf). has_few_args i.item) b.insts) blocks.now }
{
    for block in blocks {
        if !insts_few_args(block.insts.as_slice()) {
            return false;
        }
    }
    true
}

fn insts_few_args(insts: &[Lined<Inst>]) -> bool
    ensures { result ≡ list_all (λ (i : LinedOf InstOf). has_few_args i.item) insts.now }
{
    for inst in insts {
        if !has_few_args(&inst.item) {
            return false;
        }
    }
    true
}

fn has_few_args(inst: &Inst) -> bool
    ensures { result ≡ has_few_args inst.now }
{
    match inst {
        Inst::Call { args, .. } => args.len() <= ARGUMENTS,
        _ => true,
    }
}
