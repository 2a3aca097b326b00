//! Jumps.
ghost use Rattle.std.specs.Prelude.{◌≡◌, ℕ, Some, None, slice_get, IfOk, MatchBool, MatchOption, nat_eq, true, find, option_and_then};
ghost use Rattle.il_ast.specs.declared.block.PhiArg.{PhiArg as PhiArgOf};
ghost use Rattle.il_ast.specs.declared.instruction.Jump.TheVariants.{Return};
ghost use Rattle.il_ast.specs.Prelude.{globals_of, Memory, free_all, branch_to, phi_value, phi_values, place_of, with_phis, enter, jump_effect, end_of};
ghost use Rattle.obj_link.specs.Prelude.{shown, program};
ghost use Rattle.il_types.specs.Prelude.{are_distinct, are_all_distinct};
ghost use Rattle.il_interp.specs.Machine.{program_of, env_of, locals_of, received, return_to, react, stepped, Leads};

use crate::operand::{block_at, operand};
use crate::phi_numbers::phi_number;
use crate::prepare::{edges_at, place_at};
use crate::prepared::Prepared;
use crate::slots::Slots;
use crate::state::{Frame, State};
use il_ast::{Block, Class, Dest, End, Func, InText, Jump, Label, Phi, PhiArg, Val, Value};
use il_mem::memory::BlockMemory;
use il_types::arguments::{argument_at, search};
use obj_link::Linked;
use std::alloc::AllocError;

/// The argument of a phi for the block come from. It is the one at `place`, where that has the label.
fn argument(args: &[PhiArg], from: Label, place: usize) -> Option<PhiArg>
    requires { are_distinct args.now ≡ true }
    ensures { result ≡ find (λ (a : PhiArgOf). nat_eq a.from from) args.now }
{
    match argument_at(args, from, place) {
        Some(arg) => Some(arg),
        None => search(args, from),
    }
}

/// The value of a phi where its block is entered from this one.
fn phi_value(
    linked: &Linked<'_>,
    text: usize,
    temps: &Slots,
    from: Label,
    place: usize,
    phi: &Phi,
) -> Option<Value>
    requires { are_distinct phi.now.args ≡ true }
    ensures { result ≡ phi_value (globals_of (program linked.now) text) temps.now from phi.now }
{
    let arg = argument(phi.args.as_slice(), from, place)?;
    operand(linked, text, temps, phi.to.class, arg.value)
}

/// Reads the values of phis, of which none is written yet. Answers whether there is one for each.
/// `places` has where to look for the argument of each.
fn read_phis(
    linked: &Linked<'_>,
    text: usize,
    temps: &Slots,
    from: Label,
    places: &[usize],
    phis: &[Phi],
    values: &mut Vec<Value>,
) -> Result<bool, AllocError>
    requires { are_all_distinct phis.now ≡ true }
    ensures { IfOk result (λ all. MatchBool all (phi_values (globals_of (program linked.now) text) temps.now from phis.now ≡ Some values.new.items) (phi_values (globals_of (program linked.now) text) temps.now from phis.now ≡ None)) }
{
    values.clear();
    for phi in phis {
        let place = places.get(values.len()).copied().unwrap_or(0);
        match phi_number(temps, from, place, phi) {
            Some(number) => values.push(Value::Integer(number))?,
            None => match phi_value(linked, text, temps, from, place, phi) {
                Some(value) => values.push(value)?,
                None => return Ok(false),
            },
        }
    }
    Ok(true)
}

/// Writes the values of phis.
fn write_phis(temps: &mut Slots, phis: &[Phi], values: &[Value])
    ensures { temps.new ≡ with_phis temps.old phis.now values.now }
{
    match phis {
        [] => {}
        [phi, phis @ ..] => match values {
            [] => {}
            [value, values @ ..] => {
                temps.set(phi.to.temp.number(), *value);
                write_phis(temps, phis, values);
            }
        },
    }
}

/// The place and the block of a label of a function.
pub fn landing<'a>(
    prepared: &Prepared<'_>,
    function: &InText<&'a Func>,
    number: usize,
    label: Label,
) -> Option<(usize, &'a Block)>
    requires { slice_get (program_of prepared.now).functions number ≡ Some (shown function.now) }
    ensures { MatchOption result (option_and_then (λ (k : ℕ). slice_get (shown function.now).item.blocks k) (place_of (shown function.now).item.blocks label) ≡ None) (λ found. (place_of (shown function.now).item.blocks label ≡ Some found.0) × (slice_get (shown function.now).item.blocks found.0 ≡ Some found.1.now)) }
{
    let place = place_at(prepared, number, label.number())?;
    let block = block_at(function, place)?;
    Some((place, block))
}

/// A jump to a label from the block of another one. `places` has where to look for the argument of each
/// phi there.
fn enter(
    prepared: &Prepared<'_>,
    function: &InText<&Func>,
    from: Label,
    state: &mut State,
    label: Label,
    places: &[usize],
    values: &mut Vec<Value>,
) -> Result<Option<End>, AllocError>
    requires { slice_get (program_of prepared.now).functions state.old.frame.function ≡ Some (shown function.now) }
    ensures { IfOk result (λ end. react (program_of prepared.now) state.old (enter (env_of (program_of prepared.now) (shown function.now)) from (locals_of state.old.frame) state.old.memory label) ≡ stepped state.new end) }
{
    match landing(prepared, function, state.frame.function, label) {
        Some((place, block)) => {
            let phis = block.phis.as_slice();
            let temps = &state.frame.temps;
            let text = function.text;
            if read_phis(prepared.linked, text, temps, from, places, phis, values)? {
                write_phis(&mut state.frame.temps, phis, values.as_slice());
                state.frame.block = place;
                state.frame.next = 0;
                Ok(None)
            } else {
                Ok(Some(End::Undefined))
            }
        }
        None => Ok(Some(End::Undefined)),
    }
}

/// Makes blocks of memory dead, the one that was made last first.
fn free_all(memory: &mut BlockMemory, blocks: &[u128])
    ensures { memory.new ≡ free_all memory.old blocks.now }
{
    let mut left = blocks.len();
    while left > 0 {
        left -= 1;
        memory.free(blocks[left]);
    }
}

/// Gives a result to the activation that has waited for it.
pub fn receive(state: &mut State, to: &Option<Dest>, value: Option<Value>) -> Option<End>
    ensures { received state.old to.now value ≡ stepped state.new result }
{
    match (*to, value) {
        (None, _) => None,
        (Some(_), None) => Some(End::Undefined),
        (Some(to), Some(found)) => {
            state.frame.temps.set(to.temp.number(), found);
            None
        }
    }
}

/// The end that the return of `main` is.
fn end_of(value: Option<Value>) -> End
    ensures { result ≡ end_of value }
{
    match value {
        Some(Value::Integer(n)) => End::Exit((n % 256) as u8),
        _ => End::Undefined,
    }
}

/// The return of the activation that has its turn.
fn give_back(state: &mut State, value: Option<Value>) -> Option<End>
    ensures { return_to state.old.output (free_all state.old.memory state.old.frame.owned) value state.old.below ≡ stepped state.new result }
{
    free_all(&mut state.memory, state.frame.owned.as_slice());
    match state.below.pop() {
        Some(frame) => {
            let to = frame.waits;
            state.frame = frame;
            receive(state, &to, value)
        }
        None => Some(end_of(value)),
    }
}

/// Where a branch goes.
fn branch_to(value: Value, nonzero: Label, otherwise: Label) -> Label
    ensures { result ≡ branch_to value nonzero otherwise }
{
    match value {
        Value::Integer(n) => if n == 0 { otherwise } else { nonzero },
        Value::Pointer { .. } | Value::Function(_) => otherwise,
    }
}

/// `ret`
fn returns(
    linked: &Linked<'_>,
    function: &InText<&Func>,
    from: Label,
    state: &mut State,
    value: Option<Val>,
) -> Option<End>
    ensures { react (program linked.now) state.old (jump_effect (env_of (program linked.now) (shown function.now)) from (locals_of state.old.frame) state.old.memory (Return value)) ≡ stepped state.new result }
{
    let Some(value) = value else {
        return give_back(state, None);
    };
    if let Some(class) = function.item.result
        && let Some(found) = operand(linked, function.text, &state.frame.temps, class, value)
    {
        return give_back(state, Some(found));
    }
    Some(End::Undefined)
}

/// Where to look for the arguments of phis after a jump to the first label that it has, or to the second.
pub fn places_to<'a>(prepared: &'a Prepared<'_>, frame: &Frame, first: bool) -> &'a [usize] {
    match edges_at(prepared, frame.function, frame.block) {
        Some(edges) => if first {
            edges.first.as_slice()
        } else {
            edges.second.as_slice()
        },
        None => &[],
    }
}

/// The label that a jump leads to, and whether it is the first that the jump has; none where that is
/// undefined.
fn target(
    linked: &Linked<'_>,
    function: &InText<&Func>,
    frame: &Frame,
    jump: Jump,
) -> Option<(Label, bool)>
    ensures { (from : ℕ) (m : Memory) → Leads jump (jump_effect (env_of (program linked.now) (shown function.now)) from (locals_of frame.now) m jump) (λ label. enter (env_of (program linked.now) (shown function.now)) from (locals_of frame.now) m label) result }
{
    match jump {
        Jump::Goto(label) => Some((label, true)),
        Jump::Branch {
            on,
            nonzero,
            otherwise,
        } => {
            let found = operand(linked, function.text, &frame.temps, Class::W, on)?;
            let label = branch_to(found, nonzero, otherwise);
            Some((label, label == nonzero))
        }
        Jump::Return(_) | Jump::Halt => None,
    }
}

/// A jump from the block of a label.
pub fn jump(
    prepared: &Prepared<'_>,
    function: &InText<&Func>,
    from: Label,
    state: &mut State,
    jump: Jump,
    values: &mut Vec<Value>,
) -> Result<Option<End>, AllocError>
    requires { slice_get (program_of prepared.now).functions state.old.frame.function ≡ Some (shown function.now) }
    ensures { IfOk result (λ end. react (program_of prepared.now) state.old (jump_effect (env_of (program_of prepared.now) (shown function.now)) from (locals_of state.old.frame) state.old.memory jump) ≡ stepped state.new end) }
{
    match jump {
        Jump::Return(value) => Ok(returns(prepared.linked, function, from, state, value)),
        Jump::Halt => Ok(Some(End::Halt)),
        Jump::Goto(_) | Jump::Branch { .. } => {
            match target(prepared.linked, function, &state.frame, jump) {
                Some((label, first)) => {
                    let places = places_to(prepared, &state.frame, first);
                    enter(prepared, function, from, state, label, places, values)
                }
                None => Ok(Some(End::Undefined)),
            }
        }
    }
}
