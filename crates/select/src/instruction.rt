//! Lines of instructions.
ghost use Rattle.std.specs.Prelude.{◌≡◌, ◌++◌, [], ◌∷◌, map, OnOk, option_map};
ghost use Rattle.il_ast.specs.Prelude.{inst_weight};
ghost use Rattle.select.specs.Narrow.{listed, narrow, narrow_inst, narrow_turn, narrow_turns, narrow_val, narrow_dest, narrow_arg};
ghost use Rattle.vcode.specs.declared.line.Line.TheVariants.{Call};
ghost use Rattle.select.specs.Selected.{inst_lines, operand_of, destination_of, argument_of};

use crate::operand::{arguments, low_bits, operand, register, wanted};
use crate::operation::{push_binary, push_unary};
use il_ast::{Arg, Class, Dest, Inst, Lined, Seq, Val};
use std::alloc::{AllocError, Global};
use vcode::{Address, Line};

/// What an instruction weighs.
fn weight(inst: &Inst) -> u32
    ensures { result ≡ narrow (inst_weight inst.now) }
{
    match inst {
        Inst::Call { args, .. } => low_bits(1 + args.as_slice().len() as u64),
        Inst::Blit { count, .. } => low_bits(1 + count.div_ceil(8)),
        _ => 1,
    }
}

fn push_call(
    alloc: Global,
    lines: &mut Seq<Line<u32>>,
    to: Option<Dest>,
    callee: Val,
    args: &[Arg],
) -> Result<(), AllocError>
    ensures { OnOk result (lines.new ≡ lines.old ++ Call (option_map destination_of (option_map narrow_dest to)) (operand_of (narrow_val callee)) (map argument_of (map narrow_arg args.now)) ∷ []) }
{
    let args = arguments(alloc, args)?;
    lines.push(Line::Call {
        to: wanted(to),
        callee: operand(callee),
        args,
    })
}

/// Puts the lines of an instruction behind the others.
fn push_inst(
    alloc: Global,
    classes: &[Class],
    lines: &mut Seq<Line<u32>>,
    inst: &Inst,
) -> Result<(), AllocError>
    ensures { OnOk result (lines.new ≡ lines.old ++ inst_lines (listed classes.now) (narrow_inst inst.now)) }
{
    match inst {
        Inst::Unary { to, op, value } => {
            push_unary(
                classes,
                lines,
                register(to.temp),
                *op,
                to.class,
                operand(*value),
            )
        }
        Inst::Binary {
            to,
            op,
            left,
            right,
        } => push_binary(
            classes,
            lines,
            register(to.temp),
            *op,
            to.class,
            operand(*left),
            operand(*right),
        ),
        Inst::Alloc { to, size, .. } => lines.push(Line::Alloc {
            to: Some(register(to.temp)),
            size: *size,
        }),
        Inst::Store { size, value, at } => lines.push(Line::Store {
            size: *size,
            value: operand(*value),
            at: Address::at_once(operand(*at)),
        }),
        Inst::Blit { from, to, count } => lines.push(Line::Blit {
            from: operand(*from),
            to: operand(*to),
            count: *count,
        }),
        Inst::Call { to, callee, args } => push_call(alloc, lines, *to, *callee, args.as_slice()),
    }
}

/// Puts an instruction's turn behind the others.
fn push_turn(
    alloc: Global,
    classes: &[Class],
    lines: &mut Seq<Line<u32>>,
    inst: &Lined<Inst>,
) -> Result<(), AllocError>
    ensures { OnOk result (lines.new ≡ lines.old ++ narrow_turn (listed classes.now) inst.now) }
{
    lines.push(Line::Tick {
        turn: true,
        weight: weight(&inst.item),
    })?;
    push_inst(alloc, classes, lines, &inst.item)
}

/// Puts the turns of a block's instructions behind the others.
pub(crate) fn push_turns(
    alloc: Global,
    classes: &[Class],
    lines: &mut Seq<Line<u32>>,
    insts: &[Lined<Inst>],
) -> Result<(), AllocError>
    ensures { OnOk result (lines.new ≡ lines.old ++ narrow_turns (listed classes.now) insts.now) }
{
    for inst in insts {
        push_turn(alloc, classes, lines, inst)?;
    }
    Ok(())
}
