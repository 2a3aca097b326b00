//! Instructions but calls.
ghost use Rattle.std.specs.Prelude.{◌≡◌, ◌+◌, ◌<◌, ◌^◌, IfOk};
ghost use Rattle.il_ast.specs.declared.instruction.Inst.TheVariants.{Alloc, Blit};
ghost use Rattle.il_ast.specs.Prelude.{globals_of, inst_effect};
ghost use Rattle.obj_link.specs.Prelude.{program};
ghost use Rattle.il_interp.specs.Machine.{locals_of, inst_next, stepped};
ghost use Rattle.il_interp.specs.Rows.{IsInRow};

use crate::operand::operand;
use crate::rows::instruction;
use crate::state::State;
use il_ast::{Alignment, Class, Dest, End, Inst, Val, Value};
use obj_link::Linked;
use std::alloc::AllocError;

/// An instruction that is done in a row, where another one is due: it goes on, or is undefined.
pub fn in_row(linked: &Linked<'_>, text: usize, state: &mut State, inst: &Inst) -> Option<End>
    requires room { state.old.frame.next + 1 < 2 ^ 64 }
    requires row { IsInRow inst.now }
    ensures { inst_next (program linked.now) state.old (inst_effect (globals_of (program linked.now) text) (locals_of state.old.frame) state.old.memory inst.now) ≡ stepped state.new result }
{
    match instruction(
        linked,
        text,
        &mut state.frame.temps,
        &mut state.memory,
        inst,
    ) {
        Some(()) => {
            state.frame.next += 1;
            None
        }
        None => Some(End::Undefined),
    }
}

/// More blocks than any run makes: one a turn, with those of the start.
pub const MOST_BLOCKS: u128 = u128::MAX - 1;

/// `to = alloc size`
#[tactic(auto, unfolding(il_ast::specs::Effect::inst_effect))]
pub fn allocate(
    linked: &Linked<'_>,
    text: usize,
    state: &mut State,
    to: Dest,
    alignment: Alignment,
    size: u64,
) -> Result<Option<End>, AllocError>
    requires { state.old.frame.next + 1 < 2 ^ 64 }
    ensures { IfOk result (λ end. inst_next (program linked.now) state.old (inst_effect (globals_of (program linked.now) text) (locals_of state.old.frame) state.old.memory (Alloc to alignment size)) ≡ stepped state.new end) }
{
    if state.memory.made() >= MOST_BLOCKS {
        return Err(AllocError);
    }
    let block = state.memory.fresh(size as usize)?;
    state.frame.owned.push(block)?;
    let value = Value::Pointer { block, offset: 0 };
    state.frame.temps.set(to.temp.number(), value);
    state.frame.next += 1;
    Ok(None)
}

/// `blit from, to, count`
#[tactic(auto, unfolding(il_ast::specs::Effect::inst_effect))]
pub fn blit(
    linked: &Linked<'_>,
    text: usize,
    state: &mut State,
    from: Val,
    to: Val,
    count: u64,
) -> Option<End>
    requires { state.old.frame.next + 1 < 2 ^ 64 }
    ensures { inst_next (program linked.now) state.old (inst_effect (globals_of (program linked.now) text) (locals_of state.old.frame) state.old.memory (Blit from to count)) ≡ stepped state.new result }
{
    if let Some(source) = operand(linked, text, &state.frame.temps, Class::L, from)
        && let Some(target) = operand(linked, text, &state.frame.temps, Class::L, to)
        && let Some(()) = state.memory.copy(source, target, count)
    {
        state.frame.next += 1;
        return None;
    }
    Some(End::Undefined)
}
