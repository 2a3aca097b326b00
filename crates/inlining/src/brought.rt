//! Lines that bring what is passed.
ghost use Rattle.std.specs.Prelude.{◌≡◌, ℕ, ◌++◌, ◌<◌, IsTrue, OnOk};
ghost use Rattle.std.specs.List.{list_all};
ghost use Rattle.vcode.specs.declared.limits.TheConstants.{PLACES};
ghost use Rattle.vcode.specs.declared.place.Destination.{Destination as DestinationOf};
ghost use Rattle.vcode.specs.Prelude.{operand_keeps, jump_keeps, is_below};
ghost use Rattle.inlining.specs.InPlace.{brought, arguments_brought, result_brought};

use crate::moved::moved;
use il_ast::Class;
use rv_isa::RegWOp;
use std::alloc::AllocError;
use vcode::{Argument, Destination, Extension, Jump, Line, Operand, Operation};

/// The register takes what is passed of a value: of a word that is still to be extended its low half, sign-extended.
fn brought(to: u32, class: Class, extension: Extension, value: Operand<u32>) -> Line<u32>
    ensures { result ≡ brought to class extension value }
{
    match class {
        Class::W => match extension {
            Extension::Made => Line::Operate {
                to,
                operation: Operation::RegW(RegWOp::Addw),
                left: value,
                right: Operand::Number(0),
            },
            Extension::Claimed => Line::Set { to, value },
        },
        Class::L => Line::Set { to, value },
    }
}

/// The parameters, at registers so many further, take the arguments, in order.
pub(crate) fn push_arguments(
    base: u32,
    lines: &mut Vec<Line<u32>>,
    params: &[Destination<u32>],
    args: &[Argument<u32>],
) -> Result<(), AllocError>
    requires base { base < PLACES }
    requires known { IsTrue (list_all (λ (d : DestinationOf ℕ). is_below PLACES d.place) params.now) }
    ensures { OnOk result (lines.new.items ≡ lines.old.items ++ arguments_brought base params.now args.now) }
{
    match params {
        [] => Ok(()),
        [param, params @ ..] => match args {
            [] => Ok(()),
            [arg, args @ ..] => {
                lines.push(brought(param.place + base, arg.class, arg.extension, arg.value))?;
                push_arguments(base, lines, params, args)
            }
        },
    }
}

/// What is wanted of a result takes it, where the candidate returns.
pub(crate) fn push_result(
    base: u32,
    lines: &mut Vec<Line<u32>>,
    class: Option<Class>,
    to: Option<Destination<u32>>,
    jump: &Jump<u32>,
) -> Result<(), AllocError>
    requires base { base < PLACES }
    requires known { IsTrue (jump_keeps (is_below PLACES) jump.now) }
    ensures { OnOk result (lines.new.items ≡ lines.old.items ++ result_brought base class to jump.now) }
{
    match class {
        None => Ok(()),
        Some(class) => match to {
            None => Ok(()),
            Some(to) => match jump {
                Jump::Return(Some(value)) => {
                    let line = brought(to.place, class, value.extension, moved(base, &value.value));
                    lines.push(line)?;
                    Ok(())
                }
                Jump::Return(None) | Jump::Goto(_) | Jump::Branch { .. } | Jump::Halt => Ok(()),
            },
        },
    }
}
