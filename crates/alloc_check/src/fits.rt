//! Whether location code may be a function's: which places it names, and whether its ticks pay for it.
ghost use Rattle.std.specs.Prelude.{◌≡◌, ◌≤◌, ◌+◌, ◌^◌, IfSome, ◌<◌};
ghost use Rattle.std.specs.List.{list_all, list_any};
ghost use Rattle.vcode.specs.Prelude.{is_paid, operand_keeps, wanted_keeps, made_keeps, line_keeps, jump_keeps, block_keeps, keeps_places, is_place, is_near, are_near, are_distinct, located, same_location};
ghost use Rattle.alloc_check.specs.Prelude.{is_placed, exists_in, equalities_exist};

use crate::says::is_same;
use certificates::Equality;
use il_ast::{Class, Seq};
use rv_isa::abi;
use vcode::cost::is_paid;
use vcode::{Argument, Block, Code, Destination, Jump, Line, Location, Operand, Operation};

fn is_place(slots: u32, place: Location) -> bool
    ensures { result ≡ is_place slots place }
{
    match place {
        Location::Register(number) => abi::FIRST_TEMPORARY <= number && number <= abi::LAST_SAVED,
        Location::Slot(slot) => slot < slots,
    }
}

fn operand(slots: u32, value: &Operand<Location>) -> bool
    ensures { result ≡ operand_keeps (is_place slots) value.now }
{
    match value {
        Operand::At(place) => is_place(slots, *place),
        Operand::Number(_) => true,
        Operand::Name(_) => true,
    }
}

fn wanted(slots: u32, to: &Option<Destination<Location>>) -> bool
    ensures { result ≡ wanted_keeps (is_place slots) to.now }
{
    match to {
        Some(result) => is_place(slots, result.place),
        None => true,
    }
}

fn made(slots: u32, to: &Option<Location>) -> bool
    ensures { result ≡ made_keeps (is_place slots) to.now }
{
    match to {
        Some(place) => is_place(slots, *place),
        None => true,
    }
}

fn args(slots: u32, args: &[Argument<Location>]) -> bool
    ensures { result ≡ list_all (λ a. operand_keeps (is_place slots) a.value) args.now }
{
    args.iter().all(|arg| operand(slots, &arg.value))
}

fn line(slots: u32, line: &Line<Location>) -> bool
    ensures { result ≡ line_keeps (is_place slots) line.now }
{
    match line {
        Line::Tick { .. } => true,
        Line::Set { to, value } => is_place(slots, *to) && operand(slots, value),
        Line::Operate {
            to,
            left,
            right,
            ..
        } => is_place(slots, *to) && operand(slots, left) && operand(slots, right),
        Line::Load { to, at, .. } => is_place(slots, *to) && operand(slots, &at.base),
        Line::Store { value, at, .. } => operand(slots, value) && operand(slots, &at.base),
        Line::Alloc { to, .. } => made(slots, to),
        Line::Blit { from, to, .. } => operand(slots, from) && operand(slots, to),
        Line::Call {
            to,
            callee,
            args: passed,
        } => wanted(slots, to) && operand(slots, callee) && args(slots, passed.as_slice()),
    }
}

fn jump(slots: u32, jump: &Jump<Location>) -> bool
    ensures { result ≡ jump_keeps (is_place slots) jump.now }
{
    match jump {
        Jump::Goto(_) => true,
        Jump::Branch { on, .. } => operand(slots, &on.left) && operand(slots, &on.right),
        Jump::Return(None) => true,
        Jump::Return(Some(returned)) => operand(slots, &returned.value),
        Jump::Halt => true,
    }
}

fn lines(slots: u32, lines: &[Line<Location>]) -> bool
    ensures { result ≡ list_all (line_keeps (is_place slots)) lines.now }
{
    lines.iter().all(|from| line(slots, from))
}

fn block(slots: u32, block: &Block<Location>) -> bool
    ensures { result ≡ block_keeps (is_place slots) block.now }
{
    lines(slots, block.lines.as_slice()) && jump(slots, &block.jump)
}

fn blocks(slots: u32, blocks: &[Block<Location>]) -> bool
    ensures { result ≡ list_all (block_keeps (is_place slots)) blocks.now }
{
    blocks.iter().all(|from| block(slots, from))
}

fn params(slots: u32, params: &[Destination<Location>]) -> bool
    ensures { result ≡ list_all (λ d. is_place slots d.place) params.now }
{
    params.iter().all(|param| is_place(slots, param.place))
}

/// Whether all places that the code names exist, with so many slots.
pub(crate) fn names_places(slots: u32, code: &Code<Location>) -> bool
    ensures { result ≡ keeps_places (is_place slots) code.now }
{
    params(slots, code.params.as_slice()) && blocks(slots, code.blocks.as_slice())
}

fn is_near(place: Location) -> bool
    ensures { result ≡ is_near place }
{
    match place {
        Location::Register(_) => true,
        Location::Slot(slot) => slot < 128,
    }
}

fn are_near(params: &[Destination<Location>]) -> bool
    ensures { result ≡ are_near params.now }
{
    params.iter().all(|param| is_near(param.place))
}

fn is_among(place: Location, params: &[Destination<Location>]) -> bool
    ensures { result ≡ list_any (λ e. same_location place e.place) params.now }
{
    params.iter().any(|param| is_same(place, param.place))
}

fn are_distinct(params: &[Destination<Location>]) -> bool
    ensures { result ≡ are_distinct located params.now }
{
    for (k, param) in params.iter().enumerate() {
        if is_among(param.place, &params[k + 1..]) {
            return false;
        }
    }
    true
}

fn are_paid(blocks: &[Block<Location>]) -> bool
    ensures { result ≡ list_all is_paid blocks.now }
{
    blocks.iter().all(|block| is_paid(block))
}

/// Whether location code with so many slots may be a function's: its places exist, its parameters are near and apart, and its ticks pay for its lines.
pub(crate) fn is_placed(slots: u32, code: &Code<Location>) -> bool
    ensures { result ≡ is_placed slots code.now }
{
    names_places(slots, code)
        && are_near(code.params.as_slice())
        && are_distinct(code.params.as_slice())
        && are_paid(code.blocks.as_slice())
}

fn exists(registers: u32, equality: Equality) -> bool
    ensures { result ≡ exists_in registers equality }
{
    is_place(registers, equality.place) && equality.register < registers
}

/// Whether all places and registers of these equalities exist, where there are so many registers, and as many slots.
pub(crate) fn all_exist(registers: u32, equalities: &[Equality]) -> bool
    ensures { result ≡ list_all (exists_in registers) equalities.now }
{
    equalities
        .iter()
        .all(|equality| exists(registers, *equality))
}

/// Whether those of all these lists do.
pub(crate) fn equalities_exist(registers: u32, starts: &[Seq<Equality>]) -> bool
    ensures { result ≡ equalities_exist registers starts.now }
{
    starts
        .iter()
        .all(|equalities| all_exist(registers, equalities.as_slice()))
}
