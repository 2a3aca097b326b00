//! Arguments that stand in one another's registers.
ghost use Rattle.std.specs.Prelude.{◌≡◌, ◌<◌, ◌≤◌, ◌++◌, length, OnOk, IfOk, MatchOption};
ghost use Rattle.rv_isa.specs.declared.abi.TheConstants.{ARGUMENT_REGISTERS};
ghost use Rattle.abi_frames.specs.Moves.{exchanged, operand_exchanged, exchange, is_in, is_read, earlier, earlier_at, settled, arrived, move_up, all_move_up, all_moved_up};

use operation_code::fields::add_immediate;
use rv_isa::{Item, abi};
use std::alloc::AllocError;
use vcode::{Argument, Location, Operand};

/// Where something is after two registers have changed places.
fn exchanged(a: u8, b: u8, place: Location) -> Location
    ensures { result ≡ exchanged a b place }
{
    match place {
        Location::Register(number) if number == a => Location::Register(b),
        Location::Register(number) if number == b => Location::Register(a),
        _ => place,
    }
}

fn operand_exchanged(a: u8, b: u8, operand: Operand<Location>) -> Operand<Location>
    ensures { result ≡ operand_exchanged a b operand }
{
    match operand {
        Operand::At(place) => Operand::At(exchanged(a, b, place)),
        Operand::Number(_) | Operand::Name(_) => operand,
    }
}

/// The arguments after two registers have changed places.
fn exchange(
    a: u8,
    b: u8,
    arguments: &Vec<Argument<Location>>,
) -> Result<Vec<Argument<Location>>, AllocError>
    ensures { IfOk result (λ v. v.items ≡ exchange a b arguments.now.items) }
{
    let mut after = Vec::new(*arguments.allocator());
    for argument in arguments.iter() {
        after.push(Argument {
            class: argument.class,
            value: operand_exchanged(a, b, argument.value),
            extension: argument.extension,
        })?;
    }
    Ok(after)
}

fn is_in(number: u8, operand: &Operand<Location>) -> bool
    ensures { result ≡ is_in number operand.now }
{
    match operand {
        Operand::At(Location::Register(own)) => number == *own,
        Operand::At(Location::Slot(_)) | Operand::Number(_) | Operand::Name(_) => false,
    }
}

fn is_read(number: u8, arguments: &[Argument<Location>]) -> bool
    ensures { result ≡ is_read number arguments.now }
{
    for argument in arguments {
        if is_in(number, &argument.value) {
            return true;
        }
    }
    false
}

/// The register of an earlier argument, in which the one of that number stands.
fn earlier(number: u8, operand: &Operand<Location>) -> Option<u8>
    requires { number < ARGUMENT_REGISTERS }
    ensures { result ≡ earlier number operand.now }
{
    match operand {
        Operand::At(Location::Register(own))
            if abi::FIRST_ARGUMENT <= *own && *own < abi::FIRST_ARGUMENT + number => Some(*own),
        _ => None,
    }
}

fn push_move_up(items: &mut Vec<Item>, number: u8, from: u8, read: bool) -> Result<(), AllocError>
    requires { number < ARGUMENT_REGISTERS }
    ensures { OnOk result (items.new.items ≡ items.old.items ++ move_up number from read) }
{
    let to = abi::FIRST_ARGUMENT + number;
    if read {
        items.push(add_immediate(abi::SECOND_SCRATCH, to, 0))?;
    }
    items.push(add_immediate(to, from, 0))?;
    if read {
        items.push(add_immediate(from, abi::SECOND_SCRATCH, 0))?;
    }
    Ok(())
}

/// The same of the argument of that number, where it is to be in a register.
fn earlier_at(number: usize, arguments: &[Argument<Location>]) -> Option<u8>
    requires { number < length arguments.now }
    ensures value { result ≡ earlier_at number arguments.now }
    ensures few { MatchOption result (Unit {0}) (λ r. number < ARGUMENT_REGISTERS) }
{
    if number < usize::from(abi::ARGUMENT_REGISTERS) {
        earlier(number as u8, &arguments[number].value)
    } else {
        None
    }
}

/// The argument of that number is then in a register.
fn settle(arguments: &mut Vec<Argument<Location>>, number: usize, register: u8)
    requires { number < length arguments.old.items }
    ensures { arguments.new.items ≡ settled register number arguments.old.items }
{
    arguments[number].value = Operand::At(Location::Register(register));
}

/// Where arguments are after the one of that number has moved up.
fn arrived(
    number: usize,
    from: u8,
    read: bool,
    mut arguments: Vec<Argument<Location>>,
) -> Result<Vec<Argument<Location>>, AllocError>
    requires few { number < ARGUMENT_REGISTERS }
    requires inside { number < length arguments.items }
    ensures { IfOk result (λ v. v.items ≡ arrived number from read arguments.items) }
{
    let to = abi::FIRST_ARGUMENT + number as u8;
    if read {
        return exchange(to, from, &arguments);
    }
    settle(&mut arguments, number, to);
    Ok(arguments)
}

/// Moves up, the last first, each argument that is to be in a register and stands in that of an earlier one. They are then where the result says, and can be
/// moved in their order.
///
/// # Errors
///
/// Only where memory was refused.
pub(crate) fn push_moves_up(
    items: &mut Vec<Item>,
    arguments: &[Argument<Location>],
) -> Result<Vec<Argument<Location>>, AllocError>
    ensures items { IfOk result (λ v. items.new.items ≡ items.old.items ++ all_move_up (length arguments.now) arguments.now) }
    ensures arguments { IfOk result (λ v. v.items ≡ all_moved_up (length arguments.now) arguments.now) }
{
    let mut now = Vec::from_slice(*items.allocator(), arguments)?;
    for number in (0..arguments.len()).rev() {
        if let Some(from) = earlier_at(number, now.as_slice()) {
            let read = is_read(abi::FIRST_ARGUMENT + number as u8, now.as_slice());
            push_move_up(items, number as u8, from, read)?;
            now = arrived(number, from, read, now)?;
        }
    }
    Ok(now)
}
