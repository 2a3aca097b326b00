//! One turn.
ghost use Rattle.std.specs.Prelude.{◌≡◌, ◌+◌, ◌<◌, ◌^◌, Some, slice_get, IfOk};
ghost use Rattle.il_ast.specs.Prelude.{globals_of, inst_effect, turn_of};
ghost use Rattle.obj_link.specs.Prelude.{shown};
ghost use Rattle.il_interp.specs.Machine.{program_of, act_of, env_of, locals_of, inst_next, react, stepped, step};

use crate::call::call;
use crate::instruction::{allocate, blit, in_row};
use crate::jump::jump;
use crate::operand::{block_at, function_at};
use crate::prepared::Prepared;
use crate::state::State;
use il_ast::{Block, End, Func, InText, Inst, Value};
use std::alloc::{AllocError, Global};

/// Does an instruction of a text. Answers the end, where the run is over.
fn instruction(
    alloc: Global,
    prepared: &Prepared<'_>,
    text: usize,
    state: &mut State,
    inst: &Inst,
) -> Result<Option<End>, AllocError>
    requires { state.old.frame.next + 1 < 2 ^ 64 }
    ensures { IfOk result (λ end. inst_next (program_of prepared.now) state.old (inst_effect (globals_of (program_of prepared.now) text) (locals_of state.old.frame) state.old.memory inst.now) ≡ stepped state.new end) }
{
    let linked = prepared.linked;
    match inst {
        Inst::Unary { .. } | Inst::Binary { .. } | Inst::Store { .. } => {
            Ok(in_row(linked, text, state, inst))
        }
        Inst::Alloc {
            to,
            alignment,
            size,
        } => allocate(linked, text, state, *to, *alignment, *size),
        Inst::Blit { from, to, count } => Ok(blit(linked, text, state, *from, *to, *count)),
        Inst::Call { to, callee, args } => {
            call(alloc, prepared, text, state, to, *callee, args.as_slice())
        }
    }
}

/// Does the turn that is due in a block.
fn turn_in_block(
    alloc: Global,
    prepared: &Prepared<'_>,
    function: &InText<&Func>,
    block: &Block,
    state: &mut State,
    values: &mut Vec<Value>,
) -> Result<Option<End>, AllocError>
    requires { slice_get (program_of prepared.now).functions state.old.frame.function ≡ Some (shown function.now) }
    ensures { IfOk result (λ end. react (program_of prepared.now) state.old (turn_of (env_of (program_of prepared.now) (shown function.now)) (act_of state.old.frame) state.old.memory (Some block.now)) ≡ stepped state.new end) }
{
    let insts = block.insts.as_slice();
    let count = insts.len();
    match insts.get(state.frame.next) {
        Some(inst) => {
            prove!(state.frame.next < count);
            instruction(alloc, prepared, function.text, state, &inst.item)
        }
        None => match &block.jump {
            Some(end) => jump(prepared, function, block.label, state, end.item, values),
            None => Ok(Some(End::Undefined)),
        },
    }
}

/// Does the turn that is due. Answers the end, where the run is over.
#[tactic(auto, unfolding(crate::specs::Machine::step, il_ast::specs::Effect::effect))]
pub fn turn(
    alloc: Global,
    prepared: &Prepared<'_>,
    state: &mut State,
    values: &mut Vec<Value>,
) -> Result<Option<End>, AllocError>
    ensures { IfOk result (λ end. step (program_of prepared.now) state.old ≡ stepped state.new end) }
{
    if let Some(function) = function_at(prepared.linked, state.frame.function)
        && let Some(block) = block_at(function, state.frame.block)
    {
        return turn_in_block(alloc, prepared, function, block, state, values);
    }
    Ok(Some(End::Undefined))
}
