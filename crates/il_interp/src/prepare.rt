//! What is worked out once, before a run.
ghost use Rattle.std.specs.Prelude.{◌≡◌, ℕ, map, slice_get, IfOk, option_map};
ghost use Rattle.il_ast.specs.Prelude.{need};
ghost use Rattle.il_types.specs.Prelude.{capped};
ghost use Rattle.obj_link.specs.Prelude.{shown};
ghost use Rattle.il_interp.specs.Places.{needs_of, placed, places_of};
ghost use Rattle.il_interp.specs.Machine.{program_of};
ghost use Rattle.il_ast.specs.declared.function.Func.{Func as FuncOf};
ghost use Rattle.il_ast.specs.declared.program.InText.{InText as InTextOf};

use crate::edges::{Edges, edges_of};
use crate::prepared::Prepared;
use il_ast::{Func, InText, Seq};
use il_types::cost::capped_need;
use il_types::label_blocks::block_places;
use obj_link::Linked;
use std::alloc::{AllocError, Global};

/// Prepares a program to be run.
pub fn prepare<'a>(alloc: Global, linked: &'a Linked<'a>) -> Result<Prepared<'a>, AllocError>
    ensures { IfOk result (λ prepared. prepared.linked.now ≡ linked.now) }
{
    let needs = needs(alloc, linked.functions.as_slice())?;
    let places = places(alloc, linked.functions.as_slice())?;
    let edges = edges(alloc, linked.functions.as_slice(), &places)?;
    Ok(Prepared {
        linked,
        needs,
        places,
        edges,
    })
}

fn needs(alloc: Global, functions: &[InText<&Func>]) -> Result<Vec<u64>, AllocError>
    ensures { IfOk result (λ needs. needs.items ≡ needs_of (map shown functions.now)) }
{
    let mut needs = Vec::new(alloc);
    for function in functions {
        needs.push(capped_need(function.item))?;
    }
    Ok(needs)
}

fn places(alloc: Global, functions: &[InText<&Func>]) -> Result<Vec<Seq<Option<usize>>>, AllocError>
    ensures { IfOk result (λ tables. (k l : ℕ) → placed tables.items k l ≡ places_of (map shown functions.now) k l) }
{
    let mut tables = Vec::new(alloc);
    for function in functions {
        let table = block_places(alloc, function.item.blocks.as_slice())?;
        tables.push(Seq::from_vec(table))?;
    }
    Ok(tables)
}

/// The edges from the blocks of each function.
fn edges(
    alloc: Global,
    functions: &[InText<&Func>],
    places: &[Seq<Option<usize>>],
) -> Result<Vec<Seq<Edges>>, AllocError> {
    let mut tables = Vec::new(alloc);
    for (number, function) in functions.iter().enumerate() {
        let places = match places.get(number) {
            Some(places) => places.as_slice(),
            None => &[],
        };
        let table = edges_of(alloc, function.item.blocks.as_slice(), places)?;
        tables.push(Seq::from_vec(table))?;
    }
    Ok(tables)
}

/// How much room a function needs; a number that would pass 64 bits stays at the largest one.
#[tactic(auto, using(crate::proofs::ListLemmas::mapped))]
pub fn need_at(prepared: &Prepared<'_>, number: usize) -> Option<u64>
    ensures { result ≡ option_map (λ (f : InTextOf FuncOf). capped (need f.item)) (slice_get (program_of prepared.now).functions number) }
{
    prepared.needs.get(number).copied()
}

/// Where the block of a label stands in a function.
pub fn place_at(prepared: &Prepared<'_>, number: usize, label: usize) -> Option<usize>
    ensures { result ≡ places_of (program_of prepared.now).functions number label }
{
    match prepared.places.get(number) {
        Some(table) => match table.as_slice().get(label) {
            Some(place) => *place,
            None => None,
        },
        None => None,
    }
}

/// The edges from a block of a function.
pub fn edges_at<'a>(prepared: &'a Prepared<'_>, number: usize, block: usize) -> Option<&'a Edges> {
    prepared.edges.get(number)?.as_slice().get(block)
}
