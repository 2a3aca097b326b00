//! Places of values, and operands.
ghost use Rattle.std.specs.Prelude.{◌≡◌, ◌<◌};
ghost use Rattle.rv_isa.specs.Prelude.{signed};
ghost use Rattle.vcode.specs.Prelude.{low, beyond, at_once};

use il_ast::{Class, Symbol};
use rv_isa::Immediate;
use std::alloc::AllocError;

/// Where location code has a value.
#[derive(Clone, Copy, Debug)]
pub enum Location {
    /// one of the machine's registers, by its number
    Register(u8),
    /// eight bytes of the frame, by their number from 0
    Slot(u32),
}

/// An operand over places P.
#[derive(Copy, PartialEq, Eq)]
pub enum Operand<P> {
    /// what the place holds
    At(P),
    /// an integer modulo 2^64
    Number(u64),
    /// the value of a global name
    Name(Symbol),
}

impl<P: Copy> Clone for Operand<P> {
    fn clone(&self) -> Result<Operand<P>, AllocError> {
        Ok(*self)
    }
}

/// Where a load or a store reaches memory: that many bytes beyond the base.
#[derive(Copy)]
pub struct Address<P> {
    pub base: Operand<P>,
    pub offset: Immediate,
}

impl<P: Copy> Clone for Address<P> {
    fn clone(&self) -> Result<Address<P>, AllocError> {
        Ok(*self)
    }
}

fn signed_12(bits: u64) -> i16
    requires { bits < 4096 }
    ensures { result ≡ signed 12 bits }
{
    let part = bits as i16;
    if part < 2048 { part } else { part - 4096 }
}

/// The low 12 bits of a number, read with a sign.
pub fn low_part(number: u64) -> Immediate
    ensures { result ≡ low number }
{
    Immediate {
        value: signed_12(number % 4096),
    }
}

impl<P> Address<P> {
    /// The address that the base holds.
    pub fn at_once(base: Operand<P>) -> Address<P>
        ensures { result ≡ at_once base }
    {
        Address::beyond(base, 0)
    }

    /// The address beyond the base by the low 12 bits of a number, read with a sign.
    pub fn beyond(base: Operand<P>, number: u64) -> Address<P>
        ensures { result ≡ beyond base number }
    {
        Address {
            base,
            offset: low_part(number),
        }
    }
}

/// A place that takes a value of this class: a parameter, or the result of a call.
#[derive(Copy)]
pub struct Destination<P> {
    pub place: P,
    pub class: Class,
}

impl<P: Copy> Clone for Destination<P> {
    fn clone(&self) -> Result<Destination<P>, AllocError> {
        Ok(*self)
    }
}

/// Whether a word that is passed still has to be sign-extended.
#[derive(Clone, Copy)]
pub enum Extension {
    /// its low 32 bits are sign-extended when it is passed
    Made,
    /// it is claimed to stand sign-extended; where it doesn't, what passes it is undefined
    Claimed,
}

/// An argument of a call, which is passed as a value of this class.
#[derive(Copy)]
pub struct Argument<P> {
    pub class: Class,
    pub value: Operand<P>,
    pub extension: Extension,
}

impl<P: Copy> Clone for Argument<P> {
    fn clone(&self) -> Result<Argument<P>, AllocError> {
        Ok(*self)
    }
}

/// A value that a function returns, as one of the class of its result.
#[derive(Copy)]
pub struct ReturnValue<P> {
    pub value: Operand<P>,
    pub extension: Extension,
}

impl<P: Copy> Clone for ReturnValue<P> {
    fn clone(&self) -> Result<ReturnValue<P>, AllocError> {
        Ok(*self)
    }
}

impl<P> ReturnValue<P> {
    /// The value of the operand, of which nothing is claimed.
    pub fn of(value: Operand<P>) -> ReturnValue<P>
        ensures value { result.value ≡ value }
        ensures extension { result.extension ≡ Extension.Made }
    {
        ReturnValue {
            value,
            extension: Extension::Made,
        }
    }
}
