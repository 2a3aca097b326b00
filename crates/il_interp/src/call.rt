//! Calls.
ghost use Rattle.std.specs.Prelude.{◌≡◌, ◌+◌, ◌<◌, ◌^◌, ◌&&◌, [], ◌∷◌, map, length, replicate, slice_get, None, Some, IfOk, option_map};
ghost use Rattle.il_ast.specs.declared.instruction.Inst.TheVariants.{Call};
ghost use Rattle.il_ast.specs.declared.function.Param.{Param as ParamOf};
ghost use Rattle.il_ast.specs.declared.operand.Arg.{Arg as ArgOf};
ghost use Rattle.il_ast.specs.declared.operand.Dest.{Dest as DestOf};
ghost use Rattle.il_ast.specs.declared.value.Callee.TheVariants.{Defined, SystemWrite, SystemExit};
ghost use Rattle.il_ast.specs.Prelude.{globals_of, with_args, inst_effect, same_classes, result_fits};
ghost use Rattle.il_interp.specs.Machine.{program_of, locals_of, inst_next, stepped, call_of, function_step, named_step, LeavesRoom};

use crate::native::{exit, write};
use crate::operand::{all_operands, function_at, operand};
use crate::prepare::need_at;
use crate::prepared::Prepared;
use crate::slots::Slots;
use crate::state::{Frame, State};
use il_ast::{Arg, Callee, Class, Dest, End, Func, Param, Seq, Val, Value};
use std::alloc::{AllocError, Global};
use std::mem;

/// Whether arguments have the classes of parameters.
fn args_fit(args: &[Arg], params: &[Param]) -> bool
    ensures { result ≡ same_classes (map (λ (a : ArgOf). a.class) args.now) (map (λ (x : ParamOf). x.class) params.now) }
{
    match args {
        [] => params.is_empty(),
        [arg, args @ ..] => match params {
            [] => false,
            [param, params @ ..] => arg.class == param.class && args_fit(args, params),
        },
    }
}

/// Whether arguments have these classes.
fn classes_fit(args: &[Arg], classes: &[Class]) -> bool
    ensures { result ≡ same_classes (map (λ (a : ArgOf). a.class) args.now) classes.now }
{
    match args {
        [] => classes.is_empty(),
        [arg, args @ ..] => match classes {
            [] => false,
            [class, classes @ ..] => arg.class == *class && classes_fit(args, classes),
        },
    }
}

/// Whether a result can go to a destination: it may be ignored, and one that is wanted has its class.
fn result_fits(to: &Option<Dest>, class: Option<Class>) -> bool
    ensures { result ≡ result_fits (option_map (λ (d : DestOf). d.class) to.now) class }
{
    match (*to, class) {
        (None, _) => true,
        (Some(to), Some(class)) => to.class == class,
        (Some(_), None) => false,
    }
}

/// Writes the arguments of a call to the temporaries of the parameters.
fn write_args(temps: &mut Slots, params: &[Param], values: &[Value])
    ensures { temps.new ≡ with_args temps.old params.now values.now }
{
    match params {
        [] => {}
        [param, params @ ..] => match values {
            [] => {}
            [value, values @ ..] => {
                temps.set(param.temp.number(), *value);
                write_args(temps, params, values);
            }
        },
    }
}

/// The temporaries at the begin of a call.
pub fn begun(alloc: Global, function: &Func, values: &[Value]) -> Result<Slots, AllocError>
    ensures { IfOk result (λ temps. temps ≡ with_args (replicate (length function.now.temps) None) function.now.params values.now) }
{
    let mut temps = Slots::unassigned(alloc, function.temps.len())?;
    write_args(&mut temps, function.params.as_slice(), values);
    Ok(temps)
}

/// Lays the activation that has its turn on the pile, and gives the turn to a new one.
fn push_frame(state: &mut State, to: &Option<Dest>, frame: Frame) -> Result<(), AllocError>
    ensures { IfOk result (λ _. state.new ≡ record state.old { frame = frame; below = record state.old.frame { waits = to.now } ∷ state.old.below }) }
{
    let mut caller = mem::replace(&mut state.frame, frame);
    caller.waits = *to;
    state.below.push(caller)
}

/// Whether a function can be called with these arguments, for a result there.
pub fn fits(args: &[Arg], to: &Option<Dest>, function: &Func) -> bool
    ensures { result ≡ same_classes (map (λ (a : ArgOf). a.class) args.now) (map (λ (x : ParamOf). x.class) function.now.params) && result_fits (option_map (λ (d : DestOf). d.class) to.now) function.now.result }
{
    args_fit(args, function.params.as_slice()) && result_fits(to, function.result)
}

/// The room that the calls of a function have where it is called with this room, if that is enough.
#[tactic(auto, using(crate::proofs::CallLemmas::enough, crate::proofs::CallLemmas::too_little, crate::proofs::CallLemmas::no_need))]
pub fn room_left(prepared: &Prepared<'_>, room: u32, number: usize) -> Option<u32>
    ensures { LeavesRoom (slice_get (program_of prepared.now).functions number) room result }
{
    match need_at(prepared, number) {
        Some(need) => {
            if need <= u64::from(room) {
                Some(room - need as u32)
            } else {
                None
            }
        }
        None => None,
    }
}

/// The activation at the begin of a call.
pub fn first_frame(
    alloc: Global,
    number: usize,
    room: u32,
    function: &Func,
    values: &[Value],
) -> Result<Frame, AllocError>
    ensures { IfOk result (λ frame. frame ≡ record { function = number; room = room; block = 0; next = 0; temps = with_args (replicate (length function.now.temps) None) function.now.params values.now; owned = []; waits = None }) }
{
    let temps = begun(alloc, function, values)?;
    Ok(Frame {
        function: number,
        room,
        block: 0,
        next: 0,
        temps,
        owned: Seq::new(alloc),
        waits: None,
    })
}

/// A call of a function of the program.
fn call_function(
    alloc: Global,
    prepared: &Prepared<'_>,
    state: &mut State,
    to: &Option<Dest>,
    number: usize,
    args: &[Arg],
    values: &[Value],
) -> Result<Option<End>, AllocError>
    ensures { IfOk result (λ end. function_step state.old to.now (call_of (Defined number) to.now args.now values.now) number (slice_get (program_of prepared.now).functions number) ≡ stepped state.new end) }
{
    let function = match function_at(prepared.linked, number) {
        Some(function) => function.item,
        None => return Ok(Some(End::Undefined)),
    };
    if !fits(args, to, function) {
        return Ok(Some(End::Undefined));
    }
    let left = match room_left(prepared, state.frame.room, number) {
        Some(left) => left,
        None => return Ok(Some(End::Stack)),
    };
    let frame = first_frame(alloc, number, left, function, values)?;
    push_frame(state, to, frame)?;
    Ok(None)
}

/// A call of a function value, whose arguments are known.
fn call_named(
    alloc: Global,
    prepared: &Prepared<'_>,
    state: &mut State,
    to: &Option<Dest>,
    callee: Callee,
    args: &[Arg],
    values: &[Value],
) -> Result<Option<End>, AllocError>
    ensures { IfOk result (λ end. named_step (program_of prepared.now) state.old to.now (call_of callee to.now args.now values.now) callee ≡ stepped state.new end) }
{
    match callee {
        Callee::Defined(number) => {
            call_function(alloc, prepared, state, to, number, args, values)
        }
        Callee::SystemWrite
            if classes_fit(args, &[Class::W, Class::L, Class::L])
                && result_fits(to, Some(Class::L)) => { write(state, to, values) }
        Callee::SystemExit if classes_fit(args, &[Class::W]) && result_fits(to, None) => {
            Ok(exit(state, to, values))
        }
        Callee::SystemWrite | Callee::SystemExit => Ok(Some(End::Undefined)),
    }
}

/// `[to =] call callee(arguments)`
#[tactic(auto, unfolding(il_ast::specs::Effect::inst_effect))]
pub fn call(
    alloc: Global,
    prepared: &Prepared<'_>,
    text: usize,
    state: &mut State,
    to: &Option<Dest>,
    callee: Val,
    args: &[Arg],
) -> Result<Option<End>, AllocError>
    requires { state.old.frame.next + 1 < 2 ^ 64 }
    ensures { IfOk result (λ end. inst_next (program_of prepared.now) state.old (inst_effect (globals_of (program_of prepared.now) text) (locals_of state.old.frame) state.old.memory (Call to.now callee args.now)) ≡ stepped state.new end) }
{
    let linked = prepared.linked;
    if let Some(callee) = operand(linked, text, &state.frame.temps, Class::L, callee)
        && let Some(values) = all_operands(alloc, linked, text, &state.frame.temps, args)?
        && let Value::Function(function) = callee
    {
        state.frame.next += 1;
        return call_named(
            alloc,
            prepared,
            state,
            to,
            function,
            args,
            values.as_slice(),
        );
    }
    Ok(Some(End::Undefined))
}
