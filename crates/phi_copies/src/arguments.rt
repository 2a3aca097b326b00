//! Where the arguments of phis stand.
use il_ast::{Block, Func, Phi};
use std::alloc::{AllocError, Global};

/// A list for each label, with nothing in it.
fn no_places(alloc: Global, labels: usize) -> Result<Vec<Vec<usize>>, AllocError> {
    let mut places = Vec::with_capacity(alloc, labels)?;
    for _ in 0..labels {
        places.push(Vec::new(alloc))?;
    }
    Ok(places)
}

/// Notes the place of each argument of a phi for its label.
fn push_phi(places: &mut [Vec<usize>], phi: &Phi) -> Result<(), AllocError> {
    for (place, arg) in phi.args.as_slice().iter().enumerate() {
        match places.get_mut(arg.from.number()) {
            Some(places) => places.push(place)?,
            None => {}
        }
    }
    Ok(())
}

fn push_phis(places: &mut [Vec<usize>], block: &Block) -> Result<(), AllocError> {
    for phi in block.phis.as_slice() {
        push_phi(places, phi)?;
    }
    Ok(())
}

/// For each label the place, among the arguments of its phi, of each argument for this label, in the order of the phis.
pub fn argument_places(alloc: Global, func: &Func) -> Result<Vec<Vec<usize>>, AllocError> {
    let mut places = no_places(alloc, func.labels.len())?;
    for block in func.blocks.as_slice() {
        push_phis(places.as_mut_slice(), block)?;
    }
    Ok(places)
}
