//! Operands, and numbers of 32 bits. In a function of a good text no number is longer.
ghost use Rattle.std.specs.Prelude.{◌≡◌, ◌++◌, map, IfOk, OnOk, option_map};
ghost use Rattle.select.specs.Narrow.{listed, narrow, narrow_val, narrow_dest, narrow_arg, narrow_parameter};
ghost use Rattle.select.specs.Selected.{is_whole, word, operand_of, destination_of, argument_of};

use bits::sext32;
use il_ast::{Arg, Class, Dest, Param, Seq, Temp, Val};
use std::alloc::{AllocError, Global};
use vcode::{Argument, Destination, Extension, Operand};

/// The low 32 bits of a number.
pub(crate) fn low_bits(number: u64) -> u32
    ensures { result ≡ narrow number }
{
    (number % 0x1_0000_0000) as u32
}

/// The virtual register of a temporary.
pub(crate) fn register(temp: Temp) -> u32
    ensures { result ≡ narrow temp }
{
    low_bits(temp.number() as u64)
}

pub(crate) fn operand(value: Val) -> Operand<u32>
    ensures { result ≡ operand_of (narrow_val value) }
{
    match value {
        Val::Int(number) => Operand::Number(number),
        Val::Temp(temp) => Operand::At(register(temp)),
        Val::Global(name) => Operand::Name(name),
    }
}

/// The class of a register.
fn class_of(classes: &[Class], register: u32) -> Class
    ensures { result ≡ listed classes.now register }
{
    match classes.get(register as usize) {
        Some(class) => *class,
        None => Class::L,
    }
}

/// Whether an operand's word stands sign-extended as it is, in a register of class W, or is known, in a number.
pub(crate) fn is_whole(classes: &[Class], value: &Operand<u32>) -> bool
    ensures { result ≡ is_whole (listed classes.now) value.now }
{
    match value {
        Operand::At(register) => class_of(classes, *register) == Class::W,
        Operand::Number(_) => true,
        Operand::Name(_) => false,
    }
}

/// The word of such an operand, sign-extended.
pub(crate) fn word(value: Operand<u32>) -> Operand<u32>
    ensures { result ≡ word value }
{
    match value {
        Operand::Number(number) => Operand::Number(sext32(low_bits(number))),
        _ => value,
    }
}

/// Where a call's result goes, if it is wanted.
pub(crate) fn wanted(to: Option<Dest>) -> Option<Destination<u32>>
    ensures { result ≡ option_map destination_of (option_map narrow_dest to) }
{
    match to {
        Some(dest) => Some(Destination {
            place: register(dest.temp),
            class: dest.class,
        }),
        None => None,
    }
}

fn push_arguments(made: &mut Seq<Argument<u32>>, args: &[Arg]) -> Result<(), AllocError>
    ensures { OnOk result (made.new ≡ made.old ++ map argument_of (map narrow_arg args.now)) }
{
    for arg in args {
        let value = operand(arg.value);
        made.push(Argument {
            class: arg.class,
            value,
            extension: Extension::Made,
        })?;
    }
    Ok(())
}

/// The arguments of a call.
pub(crate) fn arguments(alloc: Global, args: &[Arg]) -> Result<Seq<Argument<u32>>, AllocError>
    ensures { IfOk result (λ made. made ≡ map argument_of (map narrow_arg args.now)) }
{
    let mut made = Seq::new(alloc);
    push_arguments(&mut made, args)?;
    Ok(made)
}

fn parameter(param: &Param) -> Destination<u32>
    ensures { result ≡ narrow_parameter param.now }
{
    Destination {
        place: register(param.temp),
        class: param.class,
    }
}

fn push_parameters(made: &mut Seq<Destination<u32>>, params: &[Param]) -> Result<(), AllocError>
    ensures { OnOk result (made.new ≡ made.old ++ map narrow_parameter params.now) }
{
    for param in params {
        made.push(parameter(param))?;
    }
    Ok(())
}

/// The registers of a function's parameters.
pub(crate) fn parameters(
    alloc: Global,
    params: &[Param],
) -> Result<Seq<Destination<u32>>, AllocError>
    ensures { IfOk result (λ made. made ≡ map narrow_parameter params.now) }
{
    let mut made = Seq::new(alloc);
    push_parameters(&mut made, params)?;
    Ok(made)
}
