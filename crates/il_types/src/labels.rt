//! The rules on labels: distinct locals, known labels, entry not a target, last block ends.
ghost use Rattle.std.specs.Prelude.{◌≡◌, ℕ, not, IfOk, is_none};
ghost use Rattle.il_ast.specs.declared.block.Block.{Block as BlockOf};
ghost use Rattle.il_types.specs.declared.site.Site.{Site as SiteOf};
ghost use Rattle.il_types.specs.Prelude.{or_else, when, first, marked, targets_of, sources_of, repeated_local, unknown_label, jump_to_entry, block_without_jump, is_label, is_entry};

use crate::marks::mark;
use crate::repeats::{first_unmarked, repeated};
use crate::site::Site;
use crate::sites::{label_sites, param_sites, sources};
use il_ast::{Block, Func};
use std::alloc::{AllocError, Global};

/// The first line, or else the other.
pub fn or_else(line: Option<usize>, other: Option<usize>) -> Option<usize>
    ensures { result ≡ or_else line other }
{
    match line {
        Some(line) => Some(line),
        None => other,
    }
}

/// The line of a parameter or label that is defined twice.
pub fn repeated_local(alloc: Global, function: &Func) -> Result<Option<usize>, AllocError>
    ensures { IfOk result (λ line. line ≡ repeated_local function.now) }
{
    let params = param_sites(alloc, function.params.as_slice())?;
    let labels = label_sites(alloc, function.blocks.as_slice())?;
    let param = repeated(alloc, params.as_slice())?;
    let label = repeated(alloc, labels.as_slice())?;
    Ok(or_else(param, label))
}

/// The labels of blocks.
pub fn labels(alloc: Global, blocks: &[Block]) -> Result<Vec<bool>, AllocError>
    ensures { IfOk result (λ marks. (l : ℕ) → marked marks.items l ≡ is_label blocks.now l) }
{
    let mut marks = Vec::with_capacity(alloc, blocks.len())?;
    for block in blocks {
        mark(&mut marks, block.label.number())?;
    }
    Ok(marks)
}

/// The line of a jump or phi that names a label that the function hasn't. The marks are its labels.
pub fn unknown_label(
    alloc: Global,
    function: &Func,
    known: &[bool],
    targets: &[Site],
) -> Result<Option<usize>, AllocError>
    requires known { (l : ℕ) → marked known.now l ≡ is_label function.now.blocks l }
    requires targets { targets.now ≡ targets_of function.now }
    ensures { IfOk result (λ line. line ≡ unknown_label function.now) }
{
    let target = unknown_target(function, known, targets);
    let source = unknown_source(alloc, function, known)?;
    Ok(or_else(target, source))
}

fn unknown_target(function: &Func, known: &[bool], targets: &[Site]) -> Option<usize>
    requires known { (l : ℕ) → marked known.now l ≡ is_label function.now.blocks l }
    requires targets { targets.now ≡ targets_of function.now }
    ensures { result ≡ first (λ (s : SiteOf). when (not (is_label function.now.blocks s.number)) s.line) (targets_of function.now) }
{
    first_unmarked(targets, known)
}

fn unknown_source(
    alloc: Global,
    function: &Func,
    known: &[bool],
) -> Result<Option<usize>, AllocError>
    requires { (l : ℕ) → marked known.now l ≡ is_label function.now.blocks l }
    ensures { IfOk result (λ line. line ≡ first (λ (s : SiteOf). when (not (is_label function.now.blocks s.number)) s.line) (sources_of function.now)) }
{
    let named = sources(alloc, function)?;
    Ok(first_unmarked(named.as_slice(), known))
}

/// The line of a jump to the first block.
pub fn jump_to_entry(function: &Func, targets: &[Site]) -> Option<usize>
    requires { targets.now ≡ targets_of function.now }
    ensures { result ≡ jump_to_entry function.now }
{
    first_to_entry(function.blocks.as_slice(), targets)
}

fn first_to_entry(blocks: &[Block], sites: &[Site]) -> Option<usize>
    ensures { result ≡ first (λ (s : SiteOf). when (is_entry blocks.now s.number) s.line) sites.now }
{
    for site in sites {
        if is_entry(blocks, site.number) {
            return Some(site.line);
        }
    }
    None
}

fn is_entry(blocks: &[Block], label: usize) -> bool
    ensures { result ≡ is_entry blocks.now label }
{
    match blocks {
        [] => false,
        [entry, ..] => entry.label.number() == label,
    }
}

/// The line of a block without a jump.
pub fn block_without_jump(function: &Func) -> Option<usize>
    ensures { result ≡ block_without_jump function.now }
{
    let blocks = function.blocks.as_slice();
    for block in blocks {
        if block.jump.is_none() {
            return Some(block.line);
        }
    }
    None
}
