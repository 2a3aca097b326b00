//! Blocks that need no frame.
ghost use Rattle.std.specs.Prelude.{◌≡◌, not};
ghost use Rattle.std.specs.List.{list_all, list_any};
ghost use Rattle.vcode.specs.Prelude.{is_place, operand_keeps, jump_keeps};
ghost use Rattle.frame_ways.specs.Plans.{is_register, receives, makes_in, writes, callee_saved, is_bare_place, touches_no_slot, is_bare_line, is_bare_block};

use rv_isa::abi;
use vcode::{Block, Destination, Jump, Line, Location, Operand};

/// Is the place the register of this number?
pub fn is_register(place: &Location, number: u8) -> bool
    ensures { result ≡ is_register number place.now }
{
    match place {
        Location::Register(register) => number == *register,
        Location::Slot(_) => false,
    }
}

fn receives(to: &Option<Destination<Location>>, number: u8) -> bool
    ensures { result ≡ receives number to.now }
{
    match to {
        None => false,
        Some(wanted) => is_register(&wanted.place, number),
    }
}

fn makes_in(to: &Option<Location>, number: u8) -> bool
    ensures { result ≡ makes_in number to.now }
{
    match to {
        None => false,
        Some(place) => is_register(place, number),
    }
}

fn writes(line: &Line<Location>, number: u8) -> bool
    ensures { result ≡ writes number line.now }
{
    match line {
        Line::Set { to, .. } | Line::Operate { to, .. } | Line::Load { to, .. } => is_register(
            to, number,
        ),
        Line::Alloc { to, .. } => makes_in(to, number),
        Line::Call { to, .. } => receives(to, number),
        Line::Tick { .. } | Line::Store { .. } | Line::Blit { .. } => false,
    }
}

/// Registers that places may be, numbers and names.
fn is_bare(operand: &Operand<Location>) -> bool
    ensures { result ≡ operand_keeps (is_place 0) operand.now }
{
    match operand {
        Operand::At(Location::Register(number)) => abi::FIRST_TEMPORARY <= *number
            && *number <= abi::LAST_SAVED,
        Operand::At(Location::Slot(_)) => false,
        Operand::Number(_) | Operand::Name(_) => true,
    }
}

fn is_place(place: &Location) -> bool
    ensures { result ≡ is_place 0 place.now }
{
    match place {
        Location::Register(number) => abi::FIRST_TEMPORARY <= *number && *number <= abi::LAST_SAVED,
        Location::Slot(_) => false,
    }
}

/// Is the place a register of these?
fn is_one_of(place: &Location, registers: &[u8]) -> bool
    ensures { result ≡ list_any (λ r. is_register r place.now) registers.now }
{
    for number in registers {
        if is_register(place, *number) {
            return true;
        }
    }
    false
}

/// Does the line write a register of these?
fn writes_one_of(line: &Line<Location>, registers: &[u8]) -> bool
    ensures { result ≡ list_any (λ r. writes r line.now) registers.now }
{
    for number in registers {
        if writes(line, *number) {
            return true;
        }
    }
    false
}

/// Is the place a register that a callee needn't keep?
fn is_bare_place(place: &Location) -> bool
    ensures { result ≡ is_bare_place place.now }
{
    is_place(place) && !is_one_of(place, abi::SAVED.as_slice())
}

fn touches_no_slot(line: &Line<Location>) -> bool
    ensures { result ≡ touches_no_slot line.now }
{
    match line {
        Line::Tick { .. } => true,
        Line::Set { to, value } => is_place(to) && is_bare(value),
        Line::Operate {
            to,
            left,
            right,
            ..
        } => is_place(to) && is_bare(left) && is_bare(right),
        Line::Load { to, at, .. } => is_place(to) && is_bare(&at.base),
        Line::Store { value, at, .. } => is_bare(value) && is_bare(&at.base),
        Line::Blit { from, to, .. } => is_bare(from) && is_bare(to),
        Line::Alloc { .. } | Line::Call { .. } => false,
    }
}

fn is_bare_line(line: &Line<Location>) -> bool
    ensures { result ≡ is_bare_line line.now }
{
    touches_no_slot(line) && !writes_one_of(line, abi::SAVED.as_slice())
}

fn are_bare_lines(lines: &[Line<Location>]) -> bool
    ensures { result ≡ list_all is_bare_line lines.now }
{
    for line in lines {
        if !is_bare_line(line) {
            return false;
        }
    }
    true
}

fn is_bare_jump(jump: &Jump<Location>) -> bool
    ensures { result ≡ jump_keeps (is_place 0) jump.now }
{
    match jump {
        Jump::Goto(_) | Jump::Return(None) | Jump::Halt => true,
        Jump::Branch { on, .. } => is_bare(&on.left) && is_bare(&on.right),
        Jump::Return(Some(returned)) => is_bare(&returned.value),
    }
}

/// Does the block need no frame? It touches no slot, writes no register that a callee keeps, makes no call and no block of memory.
pub(crate) fn is_bare_block(block: &Block<Location>) -> bool
    ensures { result ≡ is_bare_block block.now }
{
    are_bare_lines(block.lines.as_slice()) && is_bare_jump(&block.jump)
}

/// Are the places of parameters registers that a callee needn't keep?
pub(crate) fn are_bare_params(params: &[Destination<Location>]) -> bool
    ensures { result ≡ list_all (λ d. is_bare_place d.place) params.now }
{
    for parameter in params {
        if !is_bare_place(&parameter.place) {
            return false;
        }
    }
    true
}
