//! Code with a place for each register.
ghost use Rattle.std.specs.Prelude.{◌≡◌, ◌++◌, map, drop, OnOk, IfOk, option_map};
ghost use Rattle.alloc_check.specs.Placed.{placed_operand, placed_address, placed_argument, placed_returned, placed_destination, placed_line, placed_comparison, placed_jump};

use il_ast::Seq;
use std::alloc::{AllocError, Global};
use vcode::{
    Address, Argument, Comparison, Destination, Jump, Line, Location, Operand, ReturnValue,
};

/// Says where each virtual register is.
pub trait Placing {
    ghost use Rattle.std.specs.Prelude.{ℕ};
    ghost use Rattle.vcode.specs.declared.place.Location.{Location};

    ghost layout: { Self → ℕ → Location };

    /// The place of a register.
    fn place(&self, register: u32) -> Location
        ensures { result ≡ layout self.now register };
}

/// Register i in slot i.
#[derive(Clone, Copy)]
pub struct SlotForEach;

impl Placing for SlotForEach {
    ghost use Rattle.vcode.specs.declared.place.Location.TheVariants.{Slot};

    ghost layout = { λ s r. Slot r };

    fn place(&self, register: u32) -> Location {
        Location::Slot(register)
    }
}

fn operand<P: Placing>(places: &P, value: &Operand<u32>) -> Operand<Location>
    ensures { result ≡ placed_operand (P.layout places.now) value.now }
{
    match value {
        Operand::At(register) => Operand::At(places.place(*register)),
        Operand::Number(number) => Operand::Number(*number),
        Operand::Name(name) => Operand::Name(*name),
    }
}

fn argument<P: Placing>(places: &P, arg: &Argument<u32>) -> Argument<Location>
    ensures { result ≡ placed_argument (P.layout places.now) arg.now }
{
    Argument {
        class: arg.class,
        value: operand(places, &arg.value),
        extension: arg.extension,
    }
}

fn returned<P: Placing>(places: &P, value: &ReturnValue<u32>) -> ReturnValue<Location>
    ensures { result ≡ placed_returned (P.layout places.now) value.now }
{
    ReturnValue {
        value: operand(places, &value.value),
        extension: value.extension,
    }
}

/// A destination at its register's place.
pub(crate) fn destination<P: Placing>(places: &P, to: &Destination<u32>) -> Destination<Location>
    ensures { result ≡ placed_destination (P.layout places.now) to.now }
{
    Destination {
        place: places.place(to.place),
        class: to.class,
    }
}

fn address<P: Placing>(places: &P, from: &Address<u32>) -> Address<Location>
    ensures { result ≡ placed_address (P.layout places.now) from.now }
{
    Address {
        base: operand(places, &from.base),
        offset: from.offset,
    }
}

fn made<P: Placing>(places: &P, to: &Option<u32>) -> Option<Location>
    ensures { result ≡ option_map (P.layout places.now) to.now }
{
    match to {
        Some(register) => Some(places.place(*register)),
        None => None,
    }
}

fn wanted<P: Placing>(places: &P, to: &Option<Destination<u32>>) -> Option<Destination<Location>>
    ensures { result ≡ option_map (placed_destination (P.layout places.now)) to.now }
{
    match to {
        Some(result) => Some(destination(places, result)),
        None => None,
    }
}

fn push_arguments<P: Placing>(
    places: &P,
    placed: &mut Seq<Argument<Location>>,
    args: &[Argument<u32>],
) -> Result<(), AllocError>
    ensures { OnOk result (placed.new ≡ placed.old ++ map (placed_argument (P.layout places.now)) args.now) }
{
    for arg in args {
        placed.push(argument(places, arg))?;
    }
    Ok(())
}

fn arguments<P: Placing>(
    alloc: Global,
    places: &P,
    args: &[Argument<u32>],
) -> Result<Seq<Argument<Location>>, AllocError>
    ensures { IfOk result (λ v. v ≡ map (placed_argument (P.layout places.now)) args.now) }
{
    let mut placed = Seq::new(alloc);
    push_arguments(places, &mut placed, args)?;
    Ok(placed)
}

/// A line with each register at its place.
pub(crate) fn line<P: Placing>(
    alloc: Global,
    places: &P,
    from: &Line<u32>,
) -> Result<Line<Location>, AllocError>
    ensures { IfOk result (λ v. v ≡ placed_line (P.layout places.now) from.now) }
{
    Ok(match from {
        Line::Tick { turn, weight } => Line::Tick {
            turn: *turn,
            weight: *weight,
        },
        Line::Set { to, value } => Line::Set {
            to: places.place(*to),
            value: operand(places, value),
        },
        Line::Operate {
            to,
            operation,
            left,
            right,
        } => Line::Operate {
            to: places.place(*to),
            operation: *operation,
            left: operand(places, left),
            right: operand(places, right),
        },
        Line::Load { to, op, at } => Line::Load {
            to: places.place(*to),
            op: *op,
            at: address(places, at),
        },
        Line::Store { size, value, at } => Line::Store {
            size: *size,
            value: operand(places, value),
            at: address(places, at),
        },
        Line::Alloc { to, size } => Line::Alloc {
            to: made(places, to),
            size: *size,
        },
        Line::Blit { from, to, count } => Line::Blit {
            from: operand(places, from),
            to: operand(places, to),
            count: *count,
        },
        Line::Call { to, callee, args } => Line::Call {
            to: wanted(places, to),
            callee: operand(places, callee),
            args: arguments(alloc, places, args.as_slice())?,
        },
    })
}

fn comparison<P: Placing>(places: &P, from: &Comparison<u32>) -> Comparison<Location>
    ensures { result ≡ placed_comparison (P.layout places.now) from.now }
{
    Comparison {
        condition: from.condition,
        class: from.class,
        left: operand(places, &from.left),
        right: operand(places, &from.right),
    }
}

/// A jump with each register at its place.
pub(crate) fn jump<P: Placing>(places: &P, from: &Jump<u32>) -> Jump<Location>
    ensures { result ≡ placed_jump (P.layout places.now) from.now }
{
    match from {
        Jump::Goto(block) => Jump::Goto(*block),
        Jump::Branch { on, met, otherwise } => Jump::Branch {
            on: comparison(places, on),
            met: *met,
            otherwise: *otherwise,
        },
        Jump::Return(None) => Jump::Return(None),
        Jump::Return(Some(value)) => Jump::Return(Some(returned(places, value))),
        Jump::Halt => Jump::Halt,
    }
}
