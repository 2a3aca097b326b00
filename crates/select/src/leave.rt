//! Lines of the endings of blocks, and jumps.
ghost use Rattle.std.specs.Prelude.{◌≡◌, ◌++◌, OnOk};
ghost use Rattle.select.specs.Narrow.{listed, narrow_copies, narrow_ending, narrow_leave};
ghost use Rattle.select.specs.Selected.{jump_of};

use crate::comparison::not_zero;
use crate::operand::{low_bits, operand, register};
use crate::operation::copy;
use il_ast::{Class, Seq};
use phi_copies::ending::{Assignment, Ending, Leave};
use std::alloc::AllocError;
use vcode::{Extension, Jump, Line, ReturnValue};

fn push_copies(
    classes: &[Class],
    lines: &mut Seq<Line<u32>>,
    copies: &[Assignment],
) -> Result<(), AllocError>
    ensures { OnOk result (lines.new ≡ lines.old ++ narrow_copies (listed classes.now) copies.now) }
{
    for assignment in copies {
        let to = register(assignment.to.temp);
        let value = operand(assignment.value);
        lines.push(copy(classes, to, assignment.to.class, value))?;
    }
    Ok(())
}

/// Puts the lines of an ending behind the others.
pub(crate) fn push_ending(
    classes: &[Class],
    lines: &mut Seq<Line<u32>>,
    ending: &Ending,
) -> Result<(), AllocError>
    ensures { OnOk result (lines.new ≡ lines.old ++ narrow_ending (listed classes.now) ending.now) }
{
    lines.push(Line::Tick {
        turn: ending.turn,
        weight: low_bits(ending.weight as u64),
    })?;
    push_copies(classes, lines, ending.copies.as_slice())
}

/// The jump that leaves so.
pub(crate) fn jump_of(classes: &[Class], leave: Leave) -> Jump<u32>
    ensures { result ≡ jump_of (listed classes.now) (narrow_leave leave) }
{
    match leave {
        Leave::Goto(block) => Jump::Goto(block),
        Leave::Branch {
            on,
            nonzero,
            otherwise,
        } => Jump::Branch {
            on: not_zero(classes, operand(on)),
            met: nonzero,
            otherwise,
        },
        Leave::Return(None) => Jump::Return(None),
        Leave::Return(Some(value)) => Jump::Return(Some(ReturnValue {
            value: operand(value),
            extension: Extension::Made,
        })),
        Leave::Halt => Jump::Halt,
    }
}
