//! Extensions of low bits, of what is extended so already, and of what was loaded.
ghost use Rattle.std.specs.Prelude.{◌≡◌, ◌<◌, ◌^◌, true, IfSome};
ghost use Rattle.vcode.specs.Prelude.{distance};
ghost use Rattle.vcode.specs.declared.line.Line.TheVariants.{Operate};
ghost use Rattle.vcode.specs.declared.place.Operand.TheVariants.{At, Number};
ghost use Rattle.value_numbering.specs.declared.fact.Expression.TheVariants.{Loaded};
ghost use Rattle.value_numbering.specs.Known.{IsIn};
ghost use Rattle.value_numbering.specs.Extensions.{by_shifts, by_mask, by_sum, extension_with, extension_in, width, room, loads_zeros, loads_signs, covers, covers_words, is_extended, IsExtended, IsItself, other_way, is_base, IsReloaded};
ghost use Rattle.value_numbering.specs.Reused.{Made};

use crate::fact::{Expression, Fact, distance};
use crate::known::canonical;
use rv_isa::{LoadOp, RegOp, RegWOp};
use vcode::{Address, Line, Operand, Operation};

/// An operand's low bits, extended as this load extends what it reads.
#[derive(Clone, Copy)]
pub(crate) struct Extension {
    pub(crate) load: LoadOp,
    pub(crate) operand: Operand<u32>,
}

fn by_shifts(back: RegOp, bits: u64) -> Option<LoadOp>
    ensures { result ≡ by_shifts back bits }
{
    match (back, bits) {
        (RegOp::Srl, 56) => Some(LoadOp::Lbu),
        (RegOp::Srl, 48) => Some(LoadOp::Lhu),
        (RegOp::Srl, 32) => Some(LoadOp::Lwu),
        (RegOp::Sra, 56) => Some(LoadOp::Lb),
        (RegOp::Sra, 48) => Some(LoadOp::Lh),
        (RegOp::Sra, 32) => Some(LoadOp::Lw),
        _ => None,
    }
}

fn by_mask(mask: u64) -> Option<LoadOp>
    ensures { result ≡ by_mask mask }
{
    match mask {
        255 => Some(LoadOp::Lbu),
        65535 => Some(LoadOp::Lhu),
        _ => None,
    }
}

fn by_sum(number: u64) -> Option<LoadOp>
    ensures { result ≡ by_sum number }
{
    if number == 0 { Some(LoadOp::Lw) } else { None }
}

fn extension_with(operand: Operand<u32>, load: Option<LoadOp>) -> Option<Extension>
    ensures { result ≡ extension_with operand load }
{
    match load {
        Some(load) => Some(Extension { load, operand }),
        None => None,
    }
}

/// The operand of which a value is the extension.
pub(crate) fn extension_in(value: &Expression) -> Option<Extension>
    ensures { result ≡ extension_in value.now }
{
    match value {
        Expression::Operated(Operation::Reg(RegOp::And), operand, Operand::Number(mask)) => {
            extension_with(*operand, by_mask(*mask))
        }
        Expression::Operated(Operation::RegW(RegWOp::Addw), operand, Operand::Number(number)) => {
            extension_with(*operand, by_sum(*number))
        }
        Expression::Extended(back, operand, bits) => extension_with(
            *operand,
            by_shifts(*back, *bits),
        ),
        _ => None,
    }
}

/// How many bits a load extends.
fn width(load: LoadOp) -> u64
    ensures { result ≡ width load }
{
    match load {
        LoadOp::Lb | LoadOp::Lbu => 8,
        LoadOp::Lh | LoadOp::Lhu => 16,
        LoadOp::Lw | LoadOp::Lwu => 32,
        LoadOp::Ld => 64,
    }
}

/// Below two to this power, numbers are their own extensions.
fn room(load: LoadOp) -> u64
    ensures { result ≡ room load }
{
    match load {
        LoadOp::Lb => 7,
        LoadOp::Lbu => 8,
        LoadOp::Lh => 15,
        LoadOp::Lhu => 16,
        LoadOp::Lw => 31,
        LoadOp::Lwu => 32,
        LoadOp::Ld => 0,
    }
}

fn bound(load: LoadOp) -> u64
    ensures { result ≡ 2 ^ room load }
{
    match load {
        LoadOp::Lb => 0x80,
        LoadOp::Lbu => 0x100,
        LoadOp::Lh => 0x8000,
        LoadOp::Lhu => 0x1_0000,
        LoadOp::Lw => 0x8000_0000,
        LoadOp::Lwu => 0x1_0000_0000,
        LoadOp::Ld => 1,
    }
}

fn loads_zeros(load: LoadOp) -> bool
    ensures { result ≡ loads_zeros load }
{
    match load {
        LoadOp::Lbu | LoadOp::Lhu | LoadOp::Lwu => true,
        _ => false,
    }
}

fn loads_signs(load: LoadOp) -> bool
    ensures { result ≡ loads_signs load }
{
    match load {
        LoadOp::Lb | LoadOp::Lh | LoadOp::Lw => true,
        _ => false,
    }
}

/// Whether what is extended as one load says stays the same where it is extended as another says.
fn covers(load: LoadOp, from: LoadOp) -> bool
    ensures { result ≡ covers load from }
{
    if loads_zeros(from) {
        width(from) <= room(load)
    } else {
        loads_signs(load) && (loads_signs(from) && width(from) <= width(load))
    }
}

/// Whether so does what an operation on words gives.
fn covers_words(load: LoadOp, op: RegWOp, right: Operand<u32>) -> bool
    ensures { result ≡ covers_words load op right }
{
    match (load, op, right) {
        (LoadOp::Lw, _, _) => true,
        (LoadOp::Lwu, RegWOp::Srlw, Operand::Number(by)) => 0 < by && by < 32,
        _ => false,
    }
}

/// Whether what a value gives, if anything, stays the same where it is extended so.
fn is_extended(load: LoadOp, value: &Expression) -> bool
    ensures { result ≡ is_extended load value.now }
{
    match value {
        Expression::Loaded(from, _, _) => covers(load, *from),
        Expression::Extended(back, _, bits) => match by_shifts(*back, *bits) {
            Some(from) => covers(load, from),
            None => false,
        },
        Expression::Operated(Operation::Reg(RegOp::And), _, Operand::Number(mask)) => {
            *mask < bound(load)
        }
        Expression::Operated(Operation::RegW(op), _, right) => covers_words(load, *op, *right),
        _ => false,
    }
}

fn holds_extended(facts: &[Fact], load: LoadOp, register: u32) -> bool
    ensures { result ≡ true → IsExtended facts.now load register }
{
    for fact in facts {
        if fact.register == register && is_extended(load, &fact.value) {
            return true;
        }
    }
    false
}

/// The register that holds a value which is its extension, where it is known to be extended so already.
pub(crate) fn itself(facts: &[Fact], registers: u32, value: &Expression) -> Option<u32>
    ensures low { IfSome result (λ r. r < registers) }
    ensures itself { IfSome result (λ r. IsItself facts.now r value.now) }
{
    match extension_in(value) {
        Some(
            Extension {
                load,
                operand: Operand::At(register),
            },
        ) => {
            if register < registers && holds_extended(facts, load, register) {
                Some(register)
            } else {
                None
            }
        }
        _ => None,
    }
}

/// The load of as many bytes that extends the other way.
fn other_way(load: LoadOp) -> LoadOp
    ensures { result ≡ other_way load }
{
    match load {
        LoadOp::Lb => LoadOp::Lbu,
        LoadOp::Lbu => LoadOp::Lb,
        LoadOp::Lh => LoadOp::Lhu,
        LoadOp::Lhu => LoadOp::Lh,
        LoadOp::Lw => LoadOp::Lwu,
        LoadOp::Lwu => LoadOp::Lw,
        LoadOp::Ld => LoadOp::Ld,
    }
}

/// Whether the operand is a register of the function, or a name.
fn is_base(registers: u32, operand: Operand<u32>) -> bool
    ensures { result ≡ is_base registers operand }
{
    match operand {
        Operand::At(register) => register < registers,
        Operand::Number(_) => false,
        Operand::Name(_) => true,
    }
}

/// Where a value was loaded by this load, if a line may name that.
fn address_in(value: Expression, load: LoadOp) -> Option<Address<u32>>
    ensures { IfSome result (λ at. value ≡ Loaded load at.base (distance at)) }
{
    match value {
        Expression::Loaded(op, base, far) => {
            let at = Address::beyond(base, far);
            if op == load && distance(&at) == far {
                Some(at)
            } else {
                None
            }
        }
        _ => None,
    }
}

/// Where the register is known to be loaded by this load, beyond a register of the function or a name.
fn address_of(facts: &[Fact], registers: u32, register: u32, load: LoadOp) -> Option<Address<u32>>
    ensures loaded { IfSome result (λ at. IsIn (record { register = register; value = Loaded load at.base (distance at) }) facts.now) }
    ensures base { IfSome result (λ at. is_base registers at.base ≡ true) }
{
    for fact in facts {
        if fact.register == register {
            if let Some(at) = address_in(fact.value, load) {
                if is_base(registers, at.base) {
                    return Some(at);
                }
            }
        }
    }
    None
}

/// A load of what was loaded before.
#[derive(Clone, Copy)]
struct Reload {
    op: LoadOp,
    at: Address<u32>,
}

/// The load that gives the extension of what was loaded and extended the other way.
fn reloaded(facts: &[Fact], registers: u32, value: &Expression) -> Option<Reload>
    ensures { IfSome result (λ l. IsReloaded registers facts.now value.now l.op l.at) }
{
    match extension_in(value) {
        Some(
            Extension {
                load,
                operand: Operand::At(register),
            },
        ) => {
            match address_of(facts, registers, register, other_way(load)) {
                Some(at) => Some(Reload { op: load, at }),
                None => None,
            }
        }
        _ => None,
    }
}

/// The load in the place of an operation on a register and a number.
fn load_line(
    facts: &[Fact],
    registers: u32,
    to: u32,
    operation: Operation,
    left: u32,
    right: u64,
) -> Option<Line<u32>>
    ensures { IfSome result (λ m. Made registers facts.now (Operate to operation (At left) (Number right)) m) }
{
    let value = Expression::Operated(operation, Operand::At(left), Operand::Number(right));
    match reloaded(facts, registers, &canonical(facts, value)) {
        Some(load) => Some(Line::Load {
            to,
            op: load.op,
            at: load.at,
        }),
        None => None,
    }
}

/// A load in the place of a line that extends what was loaded and extended the other way.
pub(crate) fn reloaded_line(facts: &[Fact], registers: u32, line: &Line<u32>) -> Option<Line<u32>>
    ensures { IfSome result (λ m. Made registers facts.now line.now m) }
{
    match line {
        Line::Operate {
            to,
            operation,
            left: Operand::At(left),
            right: Operand::Number(right),
        } => load_line(facts, registers, *to, *operation, *left, *right),
        _ => None,
    }
}
