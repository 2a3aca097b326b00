//! What is worked out once for a function.
ghost use Rattle.std.specs.Prelude.{◌≡◌, ℕ, length, slice_get, IfOk};
ghost use Rattle.il_ast.specs.Prelude.{place_of};
ghost use Rattle.phi_copies.specs.Good.{IsGoodFunction};
ghost use Rattle.phi_copies.specs.Copies.{phis_at};
ghost use Rattle.phi_copies.specs.Lowered.{target};
ghost use Rattle.il_types.specs.Prelude.{place_in};
ghost use Rattle.phi_copies.specs.Map.{first_numbers};
ghost use Rattle.std.proofs.Props.{props};

use crate::arguments::argument_places;
use il_ast::{Func, Label, Phi};
use il_types::label_blocks::block_places;
use std::alloc::{AllocError, Global};

/// A function, with the place of each label's block and the number of the first temporary for each block's phis; and where to look for the arguments of phis for
/// each label, which nothing is promised of.
#[derive(Drop)]
pub struct Map<'a> {
    pub func: &'a Func,
    pub places: Vec<Option<usize>>,
    pub firsts: Vec<usize>,
    pub arguments: Vec<Vec<usize>>,
    pub ghost good: { IsGoodFunction func.now } by { Prim.hlevel props },
    pub ghost places_are: { (l : ℕ) → place_in places.items l ≡ place_of func.now.blocks l } by { Prim.hlevel props },
    pub ghost firsts_are: { firsts.items ≡ first_numbers (length func.now.temps) func.now.blocks } by { Prim.hlevel props },
}

/// Works out the map of a function.
pub fn map_of<'a>(alloc: Global, func: &'a Func) -> Result<Map<'a>, AllocError>
    requires { IsGoodFunction func.now }
    ensures { IfOk result (λ map. map.func.now ≡ func.now) }
{
    let places = block_places(alloc, func.blocks.as_slice())?;
    let firsts = count_phis(alloc, func)?;
    let arguments = argument_places(alloc, func)?;
    Ok(Map {
        func,
        places,
        firsts,
        arguments,
    })
}

/// The number of the first temporary for each block's phis.
fn count_phis(alloc: Global, func: &Func) -> Result<Vec<usize>, AllocError>
    requires { IsGoodFunction func.now }
    ensures { IfOk result (λ firsts. firsts.items ≡ first_numbers (length func.now.temps) func.now.blocks) }
{
    let mut firsts = Vec::with_capacity(alloc, func.blocks.len())?;
    let mut number = func.temps.len();
    for block in func.blocks.as_slice() {
        firsts.push(number)?;
        number += block.phis.len();
    }
    Ok(firsts)
}

/// The place of a label's block, 0 where there is none.
#[tactic(auto, using(crate::proofs::PlaceTable::found, crate::proofs::PlaceTable::found_none))]
pub fn target(map: &Map<'_>, label: Label) -> usize
    ensures { result ≡ target map.now.func.now.blocks label }
{
    match map.places.get(label.number()) {
        Some(Some(place)) => *place,
        Some(None) => 0,
        None => 0,
    }
}

/// The phis of the block at a place.
pub fn phis_at<'a>(map: &Map<'a>, place: usize) -> &'a [Phi]
    ensures { result.now ≡ phis_at map.now.func.now.blocks place }
{
    match map.func.blocks.as_slice().get(place) {
        Some(block) => block.phis.as_slice(),
        None => &[],
    }
}

/// The number of the first temporary for the phis of the block at a place.
pub fn first_number(map: &Map<'_>, place: usize) -> Option<usize>
    ensures { result ≡ slice_get map.now.firsts.items place }
{
    map.firsts.get(place).copied()
}

/// Where to look for the arguments of phis for the block of a label: for those of the one block that it leads to, and then for those of the other.
pub fn places_for<'a>(map: &'a Map<'_>, label: Label) -> &'a [usize] {
    match map.arguments.get(label.number()) {
        Some(places) => places.as_slice(),
        None => &[],
    }
}
