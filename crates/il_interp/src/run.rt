//! Runs.
ghost use Rattle.std.specs.Prelude.{◌≡◌, ◌+◌, ◌<◌, ◌≤◌, ℕ, IfOk};
ghost use Rattle.il_interp.specs.Machine.{rest_of, machine, program_of};

use crate::hops::hop_along;
use crate::prepared::Prepared;
use crate::state::State;
use crate::turn::turn;
use il_ast::{End, Value};
use std::alloc::{AllocError, Global};

/// Does so many turns, or as many as there are to the end. Answers the output and the end.
pub fn run(
    alloc: Global,
    prepared: &Prepared<'_>,
    mut state: State,
    turns: u64,
) -> Result<(Vec<u8>, End), AllocError>
    ensures { IfOk result (λ r. machine (program_of prepared.now) turns state ≡ record { output = r.0.items; ending = r.1 }) }
{
    let end = go_on(alloc, prepared, &mut state, turns)?;
    Ok((state.output.into_bytes(), end.unwrap_or(End::Turns)))
}

/// Does at most so many turns, at least one: those that are done in a row, and the one behind them.
/// Answers how many, and the end, where the run is over.
fn next_turns(
    alloc: Global,
    prepared: &Prepared<'_>,
    state: &mut State,
    numbers: &mut Vec<u64>,
    values: &mut Vec<Value>,
    most: u64,
) -> Result<(u64, Option<End>), AllocError>
    requires { 0 < most }
    ensures some { IfOk result (λ r. 0 < r.0) }
    ensures few { IfOk result (λ r. r.0 ≤ most) }
    ensures means { IfOk result (λ r. (n : ℕ) → machine (program_of prepared.now) (r.0 + n) state.old ≡ rest_of (program_of prepared.now) state.new r.1 n) }
{
    let done = hop_along(prepared, &mut state.frame, &mut state.memory, numbers, most)?;
    if done == most {
        return Ok((done, None));
    }
    let end = turn(alloc, prepared, state, values)?;
    Ok((done + 1, end))
}

/// Does so many turns, or as many as there are to the end. Answers the end, where the run is over.
pub fn go_on(
    alloc: Global,
    prepared: &Prepared<'_>,
    state: &mut State,
    turns: u64,
) -> Result<Option<End>, AllocError>
    ensures { IfOk result (λ end. (n : ℕ) → machine (program_of prepared.now) (turns + n) state.old ≡ rest_of (program_of prepared.now) state.new end n) }
{
    let mut numbers = Vec::new(alloc);
    let mut values = Vec::new(alloc);
    let mut left = turns;
    while left > 0 {
        let (done, end) = next_turns(alloc, prepared, state, &mut numbers, &mut values, left)?;
        match end {
            Some(end) => return Ok(Some(end)),
            None => left -= done,
        }
    }
    Ok(None)
}
