//! Programs, run.
ghost use Rattle.std.specs.Prelude.{◌≡◌, ◌&&◌, map, false, Err, IfOk, MatchResult, None, Some};
ghost use Rattle.il_ast.specs.declared.operation.Class.TheVariants.{W};
ghost use Rattle.il_ast.specs.declared.function.Param.{Param as ParamOf};
ghost use Rattle.il_ast.specs.Prelude.{main_args, main_classes, same_classes, result_fits, meaning};
ghost use Rattle.obj_link.specs.Prelude.{program, are_arguments};
ghost use Rattle.il_interp.specs.declared.error.RunError.TheVariants.{Words};
ghost use Rattle.il_interp.specs.Machine.{program_of, started};
ghost use Rattle.il_interp.specs.Begun.{begun_next, Refuses};

use crate::call::{first_frame, room_left};
use crate::error::RunError;
use crate::operand::function_at;
use crate::prepare::prepare;
use crate::prepared::Prepared;
use crate::run::run;
use crate::start::start_memory;
use crate::state::{Output, Pile, State};
use il_ast::{Class, End, Func, Value, limits};
use obj_link::Linked;
use obj_link::arguments::are_arguments;
use std::alloc::{AllocError, Global};

/// Runs a program with these argument words for at most so many turns. Answers the output and the
/// end: exactly those of the program's meaning.
///
/// `RunError::Words` says that the words pass a limit (1,024 words; 65,536 bytes with their closing
/// zeros; no byte 0), `RunError::Memory` that memory was refused.
pub fn interpret(
    alloc: Global,
    linked: &Linked<'_>,
    words: &[&[u8]],
    turns: u64,
) -> Result<(Vec<u8>, End), RunError>
    ensures exact { IfOk result (λ r. meaning (program linked.now) (map (λ w. w.now) words.now) turns ≡ record { output = r.0.items; ending = r.1 }) }
    ensures refused { are_arguments (map (λ w. w.now) words.now) ≡ false → result ≡ Err Words }
    ensures truth { MatchResult result (λ _. Unit {0}) (λ error. Refuses error (map (λ w. w.now) words.now)) }
{
    if !are_arguments(words) {
        return Err(RunError::Words);
    }
    let prepared = prepare(alloc, linked)?;
    match begin(alloc, &prepared, words)? {
        Ok(state) => Ok(run(alloc, &prepared, state, turns)?),
        Err(end) => Ok((Vec::new(alloc), end)),
    }
}

/// Calls `main`: the first state, or the end where the call ends the run.
#[tactic(auto, unfolding(crate::specs::Machine::started))]
pub(crate) fn begin(
    alloc: Global,
    prepared: &Prepared<'_>,
    words: &[&[u8]],
) -> Result<Result<State, End>, AllocError>
    ensures { IfOk result (λ begun. started (program_of prepared.now) (map (λ w. w.now) words.now) ≡ begun_next begun) }
{
    let memory = start_memory(alloc, prepared.linked, words)?;
    let main = prepared.linked.main;
    let function = match function_at(prepared.linked, main) {
        Some(function) => function.item,
        None => return Ok(Err(End::Undefined)),
    };
    if !main_fits(function) {
        return Ok(Err(End::Undefined));
    }
    let room = match room_left(prepared, limits::STACK_ROOM, main) {
        Some(room) => room,
        None => return Ok(Err(End::Stack)),
    };
    let args = main_args(alloc, prepared.linked.objects.len(), words.len(), function)?;
    let frame = first_frame(alloc, main, room, function, args.as_slice())?;
    Ok(Ok(State {
        frame,
        below: Pile::new(alloc),
        memory,
        output: Output::new(alloc),
    }))
}

/// The arguments of `main`: none, or the number of words and the pointer to their list.
fn main_args(
    alloc: Global,
    objects: usize,
    words: usize,
    function: &Func,
) -> Result<Vec<Value>, AllocError>
    ensures { IfOk result (λ args. args.items ≡ main_args objects words function.now.params) }
{
    let mut args = Vec::new(alloc);
    if function.params.len() > 0 {
        args.push(Value::Integer(words as u64))?;
        args.push(Value::Pointer {
            block: objects as u128 + words as u128,
            offset: 0,
        })?;
    }
    Ok(args)
}

/// Whether `main` can be called so.
fn main_fits(function: &Func) -> bool
    ensures { result ≡ same_classes (main_classes function.now.params) (map (λ (x : ParamOf). x.class) function.now.params) && result_fits (Some W) function.now.result }
{
    let params_fit = match function.params.as_slice() {
        [] => true,
        [count, list] => count.class == Class::W && list.class == Class::L,
        _ => false,
    };
    params_fit && function.result == Some(Class::W)
}
