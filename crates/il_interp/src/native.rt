//! The predefined functions.
ghost use Rattle.std.specs.Prelude.{◌≡◌, [], IfOk};
ghost use Rattle.il_ast.specs.Prelude.{answered, write_bytes, write_integer, write_call, exit_call};
ghost use Rattle.il_interp.specs.Machine.{native_step, stepped};

use crate::jump::receive;
use crate::state::State;
use il_ast::{Dest, End, Value};
use std::alloc::AllocError;

/// The answer -9 of a `write` to another descriptor than 1.
const NOT_OPEN: u64 = 0xffff_ffff_ffff_fff7;

/// Returns a number, with no output.
#[tactic(auto, using(crate::proofs::NativeLemmas::answer_is))]
fn answer(state: &mut State, to: &Option<Dest>, number: u64) -> Option<End>
    ensures { native_step state.old to.now (answered [] number state.old.memory) ≡ stepped state.new result }
{
    receive(state, to, Some(Value::Integer(number)))
}

/// `write (w descriptor, l from, l count)`
#[tactic(auto, using(crate::proofs::NativeLemmas::write_wrong, crate::proofs::NativeLemmas::undefined_is))]
pub fn write(
    state: &mut State,
    to: &Option<Dest>,
    values: &[Value],
) -> Result<Option<End>, AllocError>
    ensures { IfOk result (λ end. native_step state.old to.now (write_call values.now state.old.memory) ≡ stepped state.new end) }
{
    if let [descriptor, place, count] = values
        && let Value::Integer(number) = *descriptor
    {
        if number == 1 {
            return write_integer(state, to, *place, *count);
        }
        return Ok(answer(state, to, NOT_OPEN));
    }
    Ok(Some(End::Undefined))
}

#[tactic(auto, using(crate::proofs::NativeLemmas::undefined_is))]
fn write_integer(
    state: &mut State,
    to: &Option<Dest>,
    place: Value,
    count: Value,
) -> Result<Option<End>, AllocError>
    ensures { IfOk result (λ end. native_step state.old to.now (write_integer place count state.old.memory) ≡ stepped state.new end) }
{
    match count {
        Value::Integer(number) => write_bytes(state, to, place, number),
        Value::Pointer { .. } | Value::Function(_) => Ok(Some(End::Undefined)),
    }
}

/// Puts out so many bytes from a place of memory.
#[tactic(auto, using(crate::proofs::NativeLemmas::undefined_is))]
fn write_bytes(
    state: &mut State,
    to: &Option<Dest>,
    place: Value,
    count: u64,
) -> Result<Option<End>, AllocError>
    ensures { IfOk result (λ end. native_step state.old to.now (write_bytes place count state.old.memory) ≡ stepped state.new end) }
{
    if count == 0 {
        return Ok(answer(state, to, 0));
    }
    if let Value::Pointer { block, offset } = place
        && let Some(bytes) = state.memory.bytes(block, offset, count)?
    {
        state.output.append(bytes.as_slice())?;
        return Ok(receive(state, to, Some(Value::Integer(count))));
    }
    Ok(Some(End::Undefined))
}

/// `exit (w status)`
#[tactic(auto, using(crate::proofs::NativeLemmas::exit_wrong, crate::proofs::NativeLemmas::undefined_is))]
pub fn exit(state: &mut State, to: &Option<Dest>, values: &[Value]) -> Option<End>
    ensures { native_step state.old to.now (exit_call values.now) ≡ stepped state.new result }
{
    if let [status] = values
        && let Value::Integer(number) = *status
    {
        return Some(End::Exit((number % 256) as u8));
    }
    Some(End::Undefined)
}
