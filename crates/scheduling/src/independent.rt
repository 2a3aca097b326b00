//! Whether a line and the next one may change places.
ghost use Rattle.std.specs.Prelude.{◌≡◌};
ghost use Rattle.std.specs.List.{list_all};
ghost use Rattle.vcode.specs.Prelude.{operand_keeps, wanted_keeps, made_keeps, line_keeps, same_location, line_writes, place_of};
ghost use Rattle.scheduling.specs.Independent.{kind_of, may_swap, differs, is_unnamed, is_independent};

use vcode::{Argument, Destination, Line, Location, Operand, Operation};

/// What a line has to do with memory and with what was spent.
#[derive(Clone, Copy)]
pub(crate) enum Kind {
    /// it spends
    Ticking,
    /// it gives a place a value in which memory has no part, and never fails
    Plain,
    /// it gives a place a value that it may have of memory, and may fail
    Reading,
    /// it writes memory
    Writing,
    /// it makes a block of memory, or a call: it stays where it is
    Fixed,
}

fn kind_of(line: &Line<Location>) -> Kind
    ensures { result ≡ kind_of line.now }
{
    match line {
        Line::Tick { .. } => Kind::Ticking,
        Line::Set { .. } => Kind::Plain,
        Line::Operate { operation, .. } => match operation {
            Operation::Reg(_) | Operation::RegW(_) => Kind::Plain,
            Operation::Compare(_, _) => Kind::Reading,
        },
        Line::Load { .. } => Kind::Reading,
        Line::Store { .. } => Kind::Writing,
        Line::Alloc { .. } => Kind::Fixed,
        Line::Blit { .. } => Kind::Writing,
        Line::Call { .. } => Kind::Fixed,
    }
}

/// Whether lines of these kinds may change places, where they have no place in common.
fn may_swap(first: Kind, second: Kind) -> bool
    ensures { result ≡ may_swap first second }
{
    match first {
        Kind::Plain => match second {
            Kind::Ticking | Kind::Plain | Kind::Reading | Kind::Writing => true,
            Kind::Fixed => false,
        },
        Kind::Reading => match second {
            Kind::Ticking | Kind::Plain | Kind::Reading => true,
            Kind::Writing | Kind::Fixed => false,
        },
        Kind::Writing => match second {
            Kind::Ticking | Kind::Plain => true,
            Kind::Reading | Kind::Writing | Kind::Fixed => false,
        },
        Kind::Ticking | Kind::Fixed => false,
    }
}

fn differs(place: Location, other: Location) -> bool
    ensures { result ≡ differs place other }
{
    match (other, place) {
        (Location::Register(a), Location::Register(b)) => a != b,
        (Location::Slot(a), Location::Slot(b)) => a != b,
        (Location::Register(_), Location::Slot(_)) => true,
        (Location::Slot(_), Location::Register(_)) => true,
    }
}

/// Whether the operand is another place, or none.
pub(crate) fn operand(place: Location, value: &Operand<Location>) -> bool
    ensures { result ≡ operand_keeps (differs place) value.now }
{
    match value {
        Operand::At(other) => differs(place, *other),
        Operand::Number(_) => true,
        Operand::Name(_) => true,
    }
}

fn made(place: Location, to: &Option<Location>) -> bool
    ensures { result ≡ made_keeps (differs place) to.now }
{
    match to {
        Some(other) => differs(place, *other),
        None => true,
    }
}

fn wanted(place: Location, to: &Option<Destination<Location>>) -> bool
    ensures { result ≡ wanted_keeps (differs place) to.now }
{
    match to {
        Some(result) => differs(place, result.place),
        None => true,
    }
}

fn args(place: Location, args: &[Argument<Location>]) -> bool
    ensures { result ≡ list_all (λ a. operand_keeps (differs place) a.value) args.now }
{
    args.iter().all(|arg| operand(place, &arg.value))
}

/// Whether the line names no such place.
fn names_no(place: Location, line: &Line<Location>) -> bool
    ensures { result ≡ line_keeps (differs place) line.now }
{
    match line {
        Line::Tick { .. } => true,
        Line::Set { to, value } => differs(place, *to) && operand(place, value),
        Line::Operate {
            to,
            left,
            right,
            ..
        } => differs(place, *to) && operand(place, left) && operand(place, right),
        Line::Load { to, at, .. } => differs(place, *to) && operand(place, &at.base),
        Line::Store { value, at, .. } => operand(place, value) && operand(place, &at.base),
        Line::Alloc { to, .. } => made(place, to),
        Line::Blit { from, to, .. } => operand(place, from) && operand(place, to),
        Line::Call {
            to,
            callee,
            args: passed,
        } => wanted(place, to) && operand(place, callee) && args(place, passed.as_slice()),
    }
}

/// The place that a line writes.
pub(crate) fn written(line: &Line<Location>) -> Option<Location>
    ensures { result ≡ line_writes line.now }
{
    match line {
        Line::Tick { .. } => None,
        Line::Set { to, .. } => Some(*to),
        Line::Operate { to, .. } => Some(*to),
        Line::Load { to, .. } => Some(*to),
        Line::Store { .. } => None,
        Line::Alloc { to, .. } => *to,
        Line::Blit { .. } => None,
        Line::Call { to: Some(to), .. } => Some(to.place),
        Line::Call { to: None, .. } => None,
    }
}

/// Whether the line doesn't name the place that the other one writes.
fn is_unnamed(place: Option<Location>, line: &Line<Location>) -> bool
    ensures { result ≡ is_unnamed place line.now }
{
    match place {
        Some(place) => names_no(place, line),
        None => true,
    }
}

/// Whether a line and the next one may change places.
pub(crate) fn is_independent(first: &Line<Location>, second: &Line<Location>) -> bool
    ensures { result ≡ is_independent first.now second.now }
{
    may_swap(kind_of(first), kind_of(second))
        && is_unnamed(written(first), second)
        && is_unnamed(written(second), first)
}
