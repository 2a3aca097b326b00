//! Numbers in registers, in at most eight instructions.
ghost use Rattle.std.specs.Prelude.{◌≡◌, ◌+◌, ◌-◌, ◌*◌, ◌%◌, ◌^◌, ◌<◌, ◌≤◌, nat_eq, if◌then◌else◌, [], ◌∷◌, ◌++◌, length, OnOk};
ghost use Rattle.vcode.specs.Prelude.{is_immediate};
ghost use Rattle.operation_code.specs.Constants.{top_part, next_part, parted_constant, without_low, zeros_of, has_zeros, before_zeros, left_of, is_shifted, is_near_number, near_constant, is_made, made_constant, shifted_by, added, long_constant, constant, word, is_word, word_constant, high};

use crate::fields::{
    add_immediate, add_word, halve, load_upper, register, shift_by, shift_by_11, upper_field,
};
use rv_isa::{Item, UpperField, abi};
use std::alloc::AllocError;

/// The top 31 bits of a number.
fn push_top(items: &mut Vec<Item>, to: u8, number: u64) -> Result<(), AllocError>
    ensures { OnOk result (items.new.items ≡ items.old.items ++ top_part to number) }
{
    items.push(load_upper(to, upper_field(number / 0x1000_0000_0000)))?;
    items.push(halve(to))?;
    items.push(add_immediate(to, to, number / 0x2_0000_0000 % 0x800))?;
    Ok(())
}

/// 11 bits more.
fn push_part(items: &mut Vec<Item>, to: u8, bits: u64) -> Result<(), AllocError>
    ensures { OnOk result (items.new.items ≡ items.old.items ++ next_part to bits) }
{
    items.push(shift_by_11(to))?;
    items.push(add_immediate(to, to, bits))?;
    Ok(())
}

fn push_parted_constant(items: &mut Vec<Item>, to: u8, number: u64) -> Result<(), AllocError>
    ensures { OnOk result (items.new.items ≡ items.old.items ++ parted_constant to number) }
{
    push_top(items, to, number)?;
    push_part(items, to, number / 0x40_0000 % 0x800)?;
    push_part(items, to, number / 0x800 % 0x800)?;
    push_part(items, to, number % 0x800)?;
    Ok(())
}

/// The upper 20 bits of 32, and the low 12 where they aren't 0.
fn push_word_constant(items: &mut Vec<Item>, to: u8, bits: u64) -> Result<(), AllocError>
    requires { bits < 2 ^ 32 }
    ensures { OnOk result (items.new.items ≡ items.old.items ++ word_constant to bits) }
{
    items.push(load_upper(to, upper_part(bits)))?;
    if bits % 4096 != 0 {
        items.push(add_word(to, to, bits))?;
    }
    Ok(())
}

/// The low 32 bits of a number, sign-extended.
#[tactic(auto, using(crate::proofs::ConstantNumbers::word_by_bits))]
pub fn word(number: u64) -> u64
    ensures { result ≡ word number }
{
    let bits = number % 0x1_0000_0000;
    if bits < 0x8000_0000 {
        bits
    } else {
        bits + 0xffff_ffff_0000_0000
    }
}

/// Is the number its own low 32 bits, sign-extended?
fn is_word(number: u64) -> bool
    ensures { result ≡ is_word number }
{
    word(number) == number
}

/// The number without its low 12 bits, read with a sign.
fn without_low(number: u64) -> u64
    ensures { result ≡ without_low number }
{
    let low = number % 4096;
    if low < 2048 {
        number - low
    } else {
        number.wrapping_add(4096 - low)
    }
}

/// How many zeros stand at its end.
fn zeros_of(number: u64) -> u32
    ensures { result ≡ zeros_of number }
{
    without_low(number).trailing_zeros()
}

/// Is it a number with zeros at its end that are shifted in?
fn has_zeros(number: u64) -> bool
    ensures { result ≡ has_zeros number }
{
    let zeros = zeros_of(number);
    0 < zeros && zeros < 64
}

/// What stands before the zeros, read with a sign.
fn before_zeros(number: u64) -> u64
    requires some { 0 < zeros_of number }
    requires few { zeros_of number < 64 }
    ensures { result ≡ before_zeros number }
{
    let rest = without_low(number);
    let zeros = zeros_of(number);
    if rest < 0x8000_0000_0000_0000 {
        rest >> zeros
    } else {
        (rest >> zeros).wrapping_sub(1_u64 << (64 - zeros))
    }
}

fn left_of(number: u64) -> u64
    ensures { result ≡ left_of number }
{
    if has_zeros(number) {
        before_zeros(number)
    } else {
        0
    }
}

/// Does the shift of what is left make it?
fn is_shifted(number: u64) -> bool
    ensures { result ≡ is_shifted number }
{
    has_zeros(number) && left_of(number) << zeros_of(number) == without_low(number)
}

/// Do one or two instructions make it?
fn is_near_number(number: u64) -> bool
    ensures { result ≡ is_near_number number }
{
    has_12_bits(number) || is_word(number)
}

fn push_near(items: &mut Vec<Item>, to: u8, number: u64) -> Result<(), AllocError>
    ensures { OnOk result (items.new.items ≡ items.old.items ++ near_constant to number) }
{
    if has_12_bits(number) {
        items.push(add_immediate(to, abi::ZERO, number))?;
    } else {
        push_word_constant(items, to, number % 0x1_0000_0000)?;
    }
    Ok(())
}

/// Do so many shifts make it?
fn is_made(number: u64, shifts: u32) -> bool
    ensures { result ≡ is_made shifts number }
{
    if is_near_number(number) {
        return true;
    }
    if shifts == 0 || !is_shifted(number) {
        return false;
    }
    is_made(left_of(number), shifts - 1)
}

/// The shift, and the low 12 bits.
fn push_shift(items: &mut Vec<Item>, to: u8, number: u64) -> Result<(), AllocError>
    ensures { OnOk result (items.new.items ≡ items.old.items ++ (shifted_by to (zeros_of number) ∷ added to number)) }
{
    items.push(shift_by(to, u64::from(zeros_of(number))))?;
    if number % 4096 != 0 {
        items.push(add_immediate(to, to, number))?;
    }
    Ok(())
}

fn push_made(items: &mut Vec<Item>, to: u8, number: u64, shifts: u32) -> Result<(), AllocError>
    ensures { OnOk result (items.new.items ≡ items.old.items ++ made_constant shifts to number) }
{
    if shifts == 0 || is_near_number(number) {
        push_near(items, to, number)?;
    } else {
        push_made(items, to, left_of(number), shifts - 1)?;
        push_shift(items, to, number)?;
    }
    Ok(())
}

#[tactic(auto, unfolding(crate::specs::Constants::long_constant))]
fn push_long_constant(items: &mut Vec<Item>, to: u8, number: u64) -> Result<(), AllocError>
    ensures { OnOk result (items.new.items ≡ items.old.items ++ long_constant to number) }
{
    if is_made(number, 3) {
        push_made(items, to, number, 3)
    } else {
        push_parted_constant(items, to, number)
    }
}

/// A number that has no 12 bits.
fn push_wide_constant(items: &mut Vec<Item>, to: u8, number: u64) -> Result<(), AllocError>
    ensures { OnOk result (items.new.items ≡ items.old.items ++ (if is_word number then word_constant to (number % 2 ^ 32) else long_constant to (number % 2 ^ 64))) }
{
    if is_word(number) {
        push_word_constant(items, to, number % 0x1_0000_0000)?;
    } else {
        push_long_constant(items, to, number)?;
    }
    Ok(())
}

/// Is the number one that an immediate of 12 bits gives, read with a sign?
pub fn has_12_bits(number: u64) -> bool
    ensures { result ≡ is_immediate number }
{
    number < 0x800 || 0xffff_ffff_ffff_f800 <= number
}

/// Puts the number into a register.
pub fn push_constant(items: &mut Vec<Item>, to: u8, number: u64) -> Result<(), AllocError>
    ensures { OnOk result (items.new.items ≡ items.old.items ++ constant to number) }
{
    if has_12_bits(number) {
        items.push(add_immediate(to, abi::ZERO, number))?;
    } else {
        push_wide_constant(items, to, number)?;
    }
    Ok(())
}

/// The upper 20 bits of 32, and the low 12 where they aren't 0.
fn word_length(bits: u64) -> usize
    ensures { result ≡ length (word_constant 0 bits) }
{
    if bits % 4096 == 0 { 1 } else { 2 }
}

fn near_length(number: u64) -> usize
    ensures { result ≡ length (near_constant 0 number) }
{
    if has_12_bits(number) {
        1
    } else {
        word_length(number % 0x1_0000_0000)
    }
}

/// Of so many shifts.
#[tactic(auto, using(crate::proofs::Joining::length_shifted))]
fn made_length(number: u64, shifts: u32) -> usize
    requires { shifts ≤ 3 }
    ensures exact { result ≡ length (made_constant shifts 0 number) }
    ensures few { result ≤ 2 * shifts + 2 }
{
    if shifts == 0 || is_near_number(number) {
        near_length(number)
    } else {
        made_length(left_of(number), shifts - 1) + if number % 4096 == 0 { 1 } else { 2 }
    }
}

#[tactic(auto, unfolding(crate::specs::Constants::long_constant))]
fn long_length(number: u64) -> usize
    ensures { result ≡ length (long_constant 0 number) }
{
    if is_made(number, 3) {
        made_length(number, 3)
    } else {
        9
    }
}

/// In how many instructions `push_constant` puts the number into a register.
pub fn constant_length(number: u64) -> usize
    ensures { result ≡ length (constant 0 number) }
{
    if has_12_bits(number) {
        1
    } else if is_word(number) {
        word_length(number % 0x1_0000_0000)
    } else {
        long_length(number)
    }
}

/// The upper part of an offset.
pub fn upper_part(offset: u64) -> UpperField
    requires { offset < 2 ^ 40 }
    ensures { result ≡ high offset }
{
    upper_field((offset + 0x800) / 0x1000)
}
