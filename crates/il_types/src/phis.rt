//! The rule on phis: phi covers predecessors.
ghost use Rattle.std.specs.Prelude.{◌≡◌, ℕ, not, map, ◌&&◌, IfOk, OnOk};
ghost use Rattle.std.specs.List.{list_all};
ghost use Rattle.il_ast.specs.declared.block.PhiArg.{PhiArg as PhiArgOf};
ghost use Rattle.il_types.specs.declared.site.Site.{Site as SiteOf};
ghost use Rattle.il_types.specs.Prelude.{when, first, first_repeated, phi_sites, uncovered_phi, named, often, is_never, is_once, is_again, times_in, NothingNamed, covers_by, first_uncovered_by, uncovered_by};

use crate::labels::or_else;
use crate::predecessors::{predecessors, row};
use crate::site::Site;
use crate::sites::phi_sites;
use crate::tally::{Often, forget_all, is_again, is_never, is_once, name_all, named};
use il_ast::{Block, Func, Phi, PhiArg, Seq};
use std::alloc::{AllocError, Global};

/// The line of a phi whose labels aren't the predecessors of its block, each once, or whose
/// temporary another phi of the block assigns too.
#[tactic(auto, using(crate::proofs::CoveringLemmas::all_uncovered))]
pub fn uncovered_phi(alloc: Global, function: &Func) -> Result<Option<usize>, AllocError>
    ensures { IfOk result (λ line. line ≡ uncovered_phi function.now) }
{
    let blocks = function.blocks.as_slice();
    let rows = predecessors(alloc, blocks)?;
    uncovered_in(alloc, rows.as_slice(), blocks)
}

/// The same of blocks, where the rows have the predecessors of each label.
fn uncovered_in(
    alloc: Global,
    rows: &[Seq<usize>],
    blocks: &[Block],
) -> Result<Option<usize>, AllocError>
    ensures { IfOk result (λ line. line ≡ first (uncovered_by rows.now) blocks.now) }
{
    let mut tally = Vec::new(alloc);
    let mut leading = Vec::new(alloc);
    for block in blocks {
        match uncovered_by(alloc, &mut tally, &mut leading, rows, block)? {
            Some(line) => return Ok(Some(line)),
            None => {}
        }
    }
    Ok(None)
}

/// The same of one block. Both tallies are for use here, and name nothing before and after.
fn uncovered_by(
    alloc: Global,
    tally: &mut Vec<Often>,
    leading: &mut Vec<Often>,
    rows: &[Seq<usize>],
    block: &Block,
) -> Result<Option<usize>, AllocError>
    requires tally { NothingNamed tally.old.items }
    requires leading { NothingNamed leading.old.items }
    ensures line { IfOk result (λ line. line ≡ uncovered_by rows.now block.now) }
    ensures tally { OnOk result (NothingNamed tally.new.items) }
    ensures leading { OnOk result (NothingNamed leading.new.items) }
{
    let phis = block.phis.as_slice();
    if phis.is_empty() {
        return Ok(None);
    }
    let repeat = repeated_phi(alloc, tally, phis)?;
    let predecessors = row(rows, block.label.number());
    name_all(leading, predecessors)?;
    let uncovered = first_uncovered(alloc, tally, leading.as_slice(), predecessors, phis)?;
    forget_all(leading, predecessors);
    Ok(or_else(repeat, uncovered))
}

/// The line of a phi whose temporary another one assigns too.
fn repeated_phi(
    alloc: Global,
    tally: &mut Vec<Often>,
    phis: &[Phi],
) -> Result<Option<usize>, AllocError>
    requires { NothingNamed tally.old.items }
    ensures line { IfOk result (λ line. line ≡ first_repeated (phi_sites phis.now)) }
    ensures tally { OnOk result (NothingNamed tally.new.items) }
{
    let sites = phi_sites(alloc, phis)?;
    let numbers = numbers(alloc, sites.as_slice())?;
    name_all(tally, numbers.as_slice())?;
    let line = first_repeated(tally.as_slice(), sites.as_slice());
    forget_all(tally, numbers.as_slice());
    Ok(line)
}

fn numbers(alloc: Global, sites: &[Site]) -> Result<Vec<usize>, AllocError>
    ensures { IfOk result (λ numbers. numbers.items ≡ map (λ (s : SiteOf). s.number) sites.now) }
{
    let mut numbers = Vec::with_capacity(alloc, sites.len())?;
    for site in sites {
        numbers.push(site.number)?;
    }
    Ok(numbers)
}

/// The line of the first place whose number another one has too, by a tally of them.
fn first_repeated(tally: &[Often], sites: &[Site]) -> Option<usize>
    requires { (n : ℕ) → named tally.now n ≡ often (times_in n (map (λ (s : SiteOf). s.number) sites.now)) }
    ensures { result ≡ first_repeated sites.now }
{
    first_again(tally, sites)
}

/// The line of the first place whose number is named more than once.
fn first_again(tally: &[Often], sites: &[Site]) -> Option<usize>
    ensures { result ≡ first (λ (s : SiteOf). when (is_again (named tally.now s.number)) s.line) sites.now }
{
    for site in sites {
        if is_again(named(tally, site.number)) {
            return Some(site.line);
        }
    }
    None
}

/// The line of the first phi whose labels aren't the predecessors, each once.
fn first_uncovered(
    alloc: Global,
    tally: &mut Vec<Often>,
    leading: &[Often],
    predecessors: &[usize],
    phis: &[Phi],
) -> Result<Option<usize>, AllocError>
    requires tally { NothingNamed tally.old.items }
    requires leading { (n : ℕ) → named leading.now n ≡ often (times_in n predecessors.now) }
    ensures line { IfOk result (λ line. line ≡ first_uncovered_by predecessors.now phis.now) }
    ensures tally { OnOk result (NothingNamed tally.new.items) }
{
    for phi in phis {
        let args = phi.args.as_slice();
        if !covers_by(alloc, tally, leading, predecessors, args)? {
            return Ok(Some(phi.line));
        }
    }
    Ok(None)
}

/// Whether the labels of a phi are the predecessors, each once.
fn covers_by(
    alloc: Global,
    tally: &mut Vec<Often>,
    leading: &[Often],
    predecessors: &[usize],
    args: &[PhiArg],
) -> Result<bool, AllocError>
    requires tally { NothingNamed tally.old.items }
    requires leading { (n : ℕ) → named leading.now n ≡ often (times_in n predecessors.now) }
    ensures covers { IfOk result (λ covers. covers ≡ covers_by predecessors.now args.now) }
    ensures tally { OnOk result (NothingNamed tally.new.items) }
{
    let labels = labels(alloc, args)?;
    name_all(tally, labels.as_slice())?;
    let covers = are_right(tally.as_slice(), leading, predecessors, args);
    forget_all(tally, labels.as_slice());
    Ok(covers)
}

fn labels(alloc: Global, args: &[PhiArg]) -> Result<Vec<usize>, AllocError>
    ensures { IfOk result (λ labels. labels.items ≡ map (λ (a : PhiArgOf). a.from) args.now) }
{
    let mut labels = Vec::with_capacity(alloc, args.len())?;
    for arg in args {
        labels.push(arg.from.number())?;
    }
    Ok(labels)
}

/// The same by tallies of the labels and of the predecessors.
fn are_right(tally: &[Often], leading: &[Often], predecessors: &[usize], args: &[PhiArg]) -> bool
    requires tally { (n : ℕ) → named tally.now n ≡ often (times_in n (map (λ (a : PhiArgOf). a.from) args.now)) }
    requires leading { (n : ℕ) → named leading.now n ≡ often (times_in n predecessors.now) }
    ensures { result ≡ covers_by predecessors.now args.now }
{
    are_args_right(tally, leading, args) && are_all_named(tally, predecessors)
}

/// Whether each label of a phi is named once and leads to its block.
fn are_args_right(tally: &[Often], leading: &[Often], args: &[PhiArg]) -> bool
    ensures { result ≡ list_all (λ (a : PhiArgOf). is_once (named tally.now a.from) && not (is_never (named leading.now a.from))) args.now }
{
    for arg in args {
        let label = arg.from.number();
        if !is_once(named(tally, label)) || is_never(named(leading, label)) {
            return false;
        }
    }
    true
}

/// Whether each of these labels is named.
fn are_all_named(tally: &[Often], labels: &[usize]) -> bool
    ensures { result ≡ list_all (λ (l : ℕ). not (is_never (named tally.now l))) labels.now }
{
    for label in labels {
        if is_never(named(tally, *label)) {
            return false;
        }
    }
    true
}
