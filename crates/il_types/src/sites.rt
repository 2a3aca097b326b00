//! Places that name something by a number, in the order of the text.
ghost use Rattle.std.specs.Prelude.{◌≡◌, ◌++◌, OnOk, IfOk, flat_map};
ghost use Rattle.il_types.specs.Prelude.{end_sites, block_targets, targets_of, phi_sources, sources_in, sources_of, param_sites, label_sites, phi_sites};

use crate::site::Site;
use il_ast::{Block, Func, Jump, Lined, Param, Phi};
use std::alloc::{AllocError, Global};

/// The labels that a function's jumps name.
pub fn targets(alloc: Global, function: &Func) -> Result<Vec<Site>, AllocError>
    ensures { IfOk result (λ found. found.items ≡ targets_of function.now) }
{
    let mut found = Vec::with_capacity(alloc, function.blocks.len().saturating_mul(2))?;
    let blocks = function.blocks.as_slice();
    for block in blocks {
        collect_targets(&block.jump, &mut found)?;
    }
    Ok(found)
}

fn collect_targets(jump: &Option<Lined<Jump>>, found: &mut Vec<Site>) -> Result<(), AllocError>
    ensures { OnOk result (found.new.items ≡ found.old.items ++ end_sites jump.now) }
{
    if let Some(jump) = jump {
        let line = jump.line;
        match jump.item {
            Jump::Goto(label) => found.push(site(line, label.number()))?,
            Jump::Branch {
                on: _,
                nonzero,
                otherwise,
            } => {
                found.push(site(line, nonzero.number()))?;
                found.push(site(line, otherwise.number()))?;
            }
            Jump::Return(_) | Jump::Halt => {}
        }
    }
    Ok(())
}

/// The labels that a function's phis name.
pub fn sources(alloc: Global, function: &Func) -> Result<Vec<Site>, AllocError>
    ensures { IfOk result (λ found. found.items ≡ sources_of function.now) }
{
    let mut found = Vec::new(alloc);
    let blocks = function.blocks.as_slice();
    for block in blocks {
        collect_sources(block.phis.as_slice(), &mut found)?;
    }
    Ok(found)
}

fn collect_sources(phis: &[Phi], found: &mut Vec<Site>) -> Result<(), AllocError>
    ensures { OnOk result (found.new.items ≡ found.old.items ++ flat_map phi_sources phis.now) }
{
    for phi in phis {
        collect_source(phi, found)?;
    }
    Ok(())
}

fn collect_source(phi: &Phi, found: &mut Vec<Site>) -> Result<(), AllocError>
    ensures { OnOk result (found.new.items ≡ found.old.items ++ phi_sources phi.now) }
{
    let args = phi.args.as_slice();
    for arg in args {
        found.push(site(phi.line, arg.from.number()))?;
    }
    Ok(())
}

/// The temporaries of parameters.
pub fn param_sites(alloc: Global, params: &[Param]) -> Result<Vec<Site>, AllocError>
    ensures { IfOk result (λ found. found.items ≡ param_sites params.now) }
{
    let mut found = Vec::with_capacity(alloc, params.len())?;
    for param in params {
        found.push(site(param.line, param.temp.number()))?;
    }
    Ok(found)
}

/// The labels of blocks.
pub fn label_sites(alloc: Global, blocks: &[Block]) -> Result<Vec<Site>, AllocError>
    ensures { IfOk result (λ found. found.items ≡ label_sites blocks.now) }
{
    let mut found = Vec::with_capacity(alloc, blocks.len())?;
    for block in blocks {
        found.push(site(block.line, block.label.number()))?;
    }
    Ok(found)
}

/// The temporaries that phis assign.
pub fn phi_sites(alloc: Global, phis: &[Phi]) -> Result<Vec<Site>, AllocError>
    ensures { IfOk result (λ found. found.items ≡ phi_sites phis.now) }
{
    let mut found = Vec::with_capacity(alloc, phis.len())?;
    for phi in phis {
        found.push(site(phi.line, phi.to.temp.number()))?;
    }
    Ok(found)
}

fn site(line: usize, number: usize) -> Site
    ensures { result ≡ record { line = line; number = number } }
{
    Site { line, number }
}
