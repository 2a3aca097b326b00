//! Functions whose registers have other names.
ghost use Rattle.std.specs.Prelude.{◌≡◌, ◌<◌, ◌≤◌, ◌+◌, length, IfOk, IfSome};
ghost use Rattle.vcode.specs.declared.limits.TheConstants.{PLACES};
ghost use Rattle.il_ast.specs.Prelude.{Keeps};
ghost use Rattle.vcode.specs.Prelude.{virtual_code};
ghost use Rattle.renaming.specs.Renamed.{keep_names, owners_of};

use crate::blocks::{blocks, start_at};
use crate::choice::choose_names;
use crate::names::Names;
use crate::plan::{Plan, Renamed};
use il_ast::Seq;
use std::alloc::{AllocError, Global};
use vcode::VFunc;
use vcode::limits::PLACES;

/// Whether each of these has its own name.
fn keep_names(names: &[Renamed]) -> bool
    ensures { result ≡ keep_names names.now }
{
    names.iter().all(|renamed| renamed.register == renamed.name)
}

/// The names that a plan allows, of which none is given yet.
fn names_of(alloc: Global, plan: &Plan) -> Result<Names, AllocError>
    ensures { IfOk result (λ n. owners_of n ≡ record { plain = plan.now.plain.items; beyond = plan.now.owners.items }) }
{
    let mut plain = Vec::with_capacity(alloc, plan.plain.len())?;
    plain.extend_from_slice(plan.plain.as_slice())?;
    let mut beyond = Vec::with_capacity(alloc, plan.owners.len())?;
    beyond.extend_from_slice(plan.owners.as_slice())?;
    let places = vec![in alloc; 0usize; plain.len()]?;
    Ok(Names {
        plain,
        beyond,
        named: Vec::new(alloc),
        places,
    })
}

/// The number of registers by the plan, if a function may have so many, and has at least its own.
fn registers(function: &VFunc, plan: &Plan) -> Option<u32>
    ensures { IfSome result (λ n. (n < PLACES) × ((function.now.registers ≤ n) × ((n ≡ length plan.now.plain.items + length plan.now.owners.items) × (length plan.now.plain.items ≡ function.now.registers)))) }
{
    let plain = plan.plain.len();
    let more = plan.owners.len();
    if plain == function.registers as usize && more < (PLACES - function.registers) as usize {
        Some(function.registers + more as u32)
    } else {
        None
    }
}

/// The function by a plan: each register that a line writes has the planned name there, and each that a line or a jump reads has the name under which its value was
/// written. None where the plan isn't right. It takes time as the text is long.
///
/// # Errors
///
/// Only where memory was refused.
pub fn apply(alloc: Global, function: &VFunc, plan: &Plan) -> Result<Option<VFunc>, AllocError>
    ensures { IfOk result (λ o. IfSome o (λ w. Keeps (virtual_code function.now) (virtual_code w))) }
{
    let Some(registers) = registers(function, plan) else {
        return Ok(None);
    };
    if !keep_names(start_at(plan.starts.as_slice(), 0)) {
        return Ok(None);
    }
    let mut names = names_of(alloc, plan)?;
    match blocks(alloc, &mut names, plan, function.code.blocks.as_slice())? {
        Some(blocks) => {
            let made = function.with_blocks(alloc, registers, Seq::from_vec(blocks))?;
            Ok(Some(made))
        }
        None => Ok(None),
    }
}

/// The function in which values of one register that have no reader in common stand in registers of their own.
///
/// # Errors
///
/// Only where memory was refused.
pub fn rename_webs(alloc: Global, function: &VFunc) -> Result<Option<VFunc>, AllocError>
    ensures { IfOk result (λ o. IfSome o (λ w. Keeps (virtual_code function.now) (virtual_code w))) }
{
    match choose_names(alloc, function)? {
        Some(plan) => apply(alloc, function, &plan),
        None => Ok(None),
    }
}
