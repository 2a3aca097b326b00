//! Where the arguments of phis stand.
use il_ast::{Block, Jump, Label, Phi, Seq};
use std::alloc::{AllocError, Global};

/// The edges from a block, to the first label of its jump and to the second. For each phi of the block
/// there, the place among its arguments of the one for this edge.
#[derive(Drop)]
pub struct Edges {
    pub first: Seq<usize>,
    pub second: Seq<usize>,
}

fn no_edges(alloc: Global, blocks: usize) -> Result<Vec<Edges>, AllocError> {
    let mut edges = Vec::new(alloc);
    for _ in 0..blocks {
        edges.push(Edges {
            first: Seq::new(alloc),
            second: Seq::new(alloc),
        })?;
    }
    Ok(edges)
}

/// Notes the place of an argument at the edges by which a jump leads to a label.
fn push_to(edges: &mut Edges, jump: Jump, label: Label, place: usize) -> Result<(), AllocError> {
    let (first, second) = match jump {
        Jump::Goto(to) => (to == label, false),
        Jump::Branch {
            nonzero,
            otherwise,
            ..
        } => (nonzero == label, otherwise == label),
        Jump::Return(_) | Jump::Halt => (false, false),
    };
    if first {
        edges.first.push(place)?;
    }
    if second {
        edges.second.push(place)?;
    }
    Ok(())
}

/// Notes the places of a phi's arguments. `places` has where the block of each label stands.
fn push_phi(
    edges: &mut [Edges],
    blocks: &[Block],
    places: &[Option<usize>],
    label: Label,
    phi: &Phi,
) -> Result<(), AllocError> {
    for (place, arg) in phi.args.as_slice().iter().enumerate() {
        if let Some(Some(source)) = places.get(arg.from.number())
            && let Some(block) = blocks.get(*source)
            && let Some(jump) = &block.jump
            && let Some(edges) = edges.get_mut(*source)
        {
            push_to(edges, jump.item, label, place)?;
        }
    }
    Ok(())
}

/// The edges from each block of a function. `places` has where the block of each label stands. It takes
/// a step for each argument of a phi.
pub fn edges_of(
    alloc: Global,
    blocks: &[Block],
    places: &[Option<usize>],
) -> Result<Vec<Edges>, AllocError> {
    let mut edges = no_edges(alloc, blocks.len())?;
    for block in blocks {
        for phi in block.phis.as_slice() {
            push_phi(edges.as_mut_slice(), blocks, places, block.label, phi)?;
        }
    }
    Ok(edges)
}
