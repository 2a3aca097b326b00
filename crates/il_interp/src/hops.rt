//! Instructions, and jumps on integers, which are done one after another through blocks.
ghost use Rattle.std.specs.Prelude.{◌≡◌, ◌<◌, ◌≤◌, ℕ, List, Some, true, slice_get, IfOk, IfSome, MatchBool};
ghost use Rattle.il_ast.specs.Prelude.{Memory, Env, enter, jump_effect};
ghost use Rattle.obj_link.specs.Prelude.{shown};
ghost use Rattle.il_interp.specs.Machine.{program_of};
ghost use Rattle.il_interp.specs.Hops.{Ends, Enters, GoesAlong, held_in};

use crate::jump::{landing, places_to};
use crate::numbers::{in_class, number_at};
use crate::operand::{block_at, function_at};
use crate::phi_numbers::take_numbers;
use crate::prepared::Prepared;
use crate::rows::operate_in_row;
use crate::slots::Slots;
use crate::state::Frame;
use il_ast::{Block, Class, Func, InText, Jump, Label};
use il_mem::memory::BlockMemory;
use std::alloc::AllocError;

/// The label that a jump leads to, and whether it is the first that the jump has; none for a return and for
/// a branch on what isn't an integer.
fn target(temps: &Slots, jump: Jump) -> Option<(Label, bool)>
    ensures { IfSome result (λ found. (env : Env) (from : ℕ) (owned : List ℕ) (m : Memory) → jump_effect env from (held_in temps.now owned) m jump ≡ enter env from (held_in temps.now owned) m found.0) }
{
    match jump {
        Jump::Goto(label) => Some((label, true)),
        Jump::Branch {
            on,
            nonzero,
            otherwise,
        } => {
            let number = number_at(temps, &on)?;
            Some(if in_class(Class::W, number) == 0 {
                (otherwise, false)
            } else {
                (nonzero, true)
            })
        }
        Jump::Return(_) | Jump::Halt => None,
    }
}

/// A jump to a label from the block of another one, where all phis there take integers. Answers whether it
/// was done. `places` has where to look for the argument of each phi.
fn enter(
    prepared: &Prepared<'_>,
    function: &InText<&Func>,
    from: Label,
    frame: &mut Frame,
    label: Label,
    places: &[usize],
    numbers: &mut Vec<u64>,
) -> Result<bool, AllocError>
    requires { slice_get (program_of prepared.now).functions frame.old.function ≡ Some (shown function.now) }
    ensures same { IfOk result (λ done. frame.new.function ≡ frame.old.function) }
    ensures enters { IfOk result (λ done. MatchBool done (Enters (program_of prepared.now) (shown function.now) from label frame.old frame.new) (frame.new ≡ frame.old)) }
{
    match landing(prepared, function, frame.function, label) {
        Some((place, block)) => {
            let phis = block.phis.as_slice();
            if take_numbers(&mut frame.temps, from, places, phis, numbers)? {
                frame.block = place;
                frame.next = 0;
                Ok(true)
            } else {
                Ok(false)
            }
        }
        None => Ok(false),
    }
}

/// The jump of a block, where that is one to a label, and on integers alone. Answers whether it was done.
fn hop(
    prepared: &Prepared<'_>,
    function: &InText<&Func>,
    block: &Block,
    frame: &mut Frame,
    numbers: &mut Vec<u64>,
) -> Result<bool, AllocError>
    requires { slice_get (program_of prepared.now).functions frame.old.function ≡ Some (shown function.now) }
    ensures same { IfOk result (λ done. frame.new.function ≡ frame.old.function) }
    ensures ends { IfOk result (λ done. MatchBool done (Ends (program_of prepared.now) (shown function.now) block.now frame.old frame.new) (frame.new ≡ frame.old)) }
{
    if let Some(jump) = &block.jump
        && let Some((label, first)) = target(&frame.temps, jump.item)
    {
        let places = places_to(prepared, frame, first);
        return enter(
            prepared,
            function,
            block.label,
            frame,
            label,
            places,
            numbers,
        );
    }
    Ok(false)
}

/// Does the turns of a block that are instructions of a row, from where it stands on, and a jump on integers
/// behind them, at most so many. Answers how many, and whether the jump was done.
fn turns_in_block(
    prepared: &Prepared<'_>,
    function: &InText<&Func>,
    block: &Block,
    frame: &mut Frame,
    memory: &mut BlockMemory,
    numbers: &mut Vec<u64>,
    most: u64,
) -> Result<(u64, bool), AllocError>
    requires function { slice_get (program_of prepared.now).functions frame.old.function ≡ Some (shown function.now) }
    requires block { slice_get (shown function.now).item.blocks frame.old.block ≡ Some block.now }
    ensures same { IfOk result (λ r. frame.new.function ≡ frame.old.function) }
    ensures some { IfOk result (λ r. r.1 ≡ true → 0 < r.0) }
    ensures few { IfOk result (λ r. r.0 ≤ most) }
    ensures means { IfOk result (λ r. GoesAlong (program_of prepared.now) frame.old memory.old r.0 frame.new memory.new) }
{
    let from = frame.next;
    let insts = block.insts.as_slice();
    let next = operate_in_row(
        prepared.linked,
        function.text,
        insts,
        &mut frame.temps,
        memory,
        from,
        most,
    );
    frame.next = next;
    let done = (next - from) as u64;
    if done == most || next < insts.len() {
        return Ok((done, false));
    }
    if hop(prepared, function, block, frame, numbers)? {
        Ok((done + 1, true))
    } else {
        Ok((done, false))
    }
}

/// Does turns while these are instructions of a row and jumps on integers, at most so many. Answers how many.
#[inline(never)]
pub fn hop_along(
    prepared: &Prepared<'_>,
    frame: &mut Frame,
    memory: &mut BlockMemory,
    numbers: &mut Vec<u64>,
    most: u64,
) -> Result<u64, AllocError>
    ensures few { IfOk result (λ done. done ≤ most) }
    ensures means { IfOk result (λ done. GoesAlong (program_of prepared.now) frame.old memory.old done frame.new memory.new) }
{
    let function = match function_at(prepared.linked, frame.function) {
        Some(function) => function,
        None => return Ok(0),
    };
    let mut left = most;
    while left > 0 {
        let block = match block_at(function, frame.block) {
            Some(block) => block,
            None => return Ok(most - left),
        };
        let (done, goes_on) = turns_in_block(
            prepared, function, block, frame, memory, numbers, left,
        )?;
        left -= done;
        if !goes_on {
            return Ok(most - left);
        }
    }
    Ok(most)
}
