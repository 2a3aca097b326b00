//! The places of a code: virtual registers, or registers and slots.
ghost use Rattle.std.specs.Prelude.{◌≡◌, ◌<◌};

use rv_isa::abi;
use vcode::Location;

/// A place that a code names.
pub trait CodePlace: Copy + Drop {
    ghost use Rattle.std.specs.Prelude.{ℕ, Bool, ◌≡◌};
    ghost use Rattle.vcode.specs.Places.{Places};

    /// Whether a function with so many registers or slots has the place.
    ghost exists: { ℕ → Self → Bool };

    /// Whether a parameter may be there.
    ghost near: { Self → Bool };

    /// How places are told apart.
    ghost apart: { Places Self };

    /// Whether a function with so many registers or slots has the place.
    fn exists(self, count: u32) -> bool
        ensures { result ≡ exists count self };

    /// Whether a parameter may be there.
    fn is_near(self) -> bool
        ensures { result ≡ near self };

    /// Whether it is the same place.
    fn is_same(self, other: Self) -> bool
        ensures { result ≡ apart.same self other };
}

impl CodePlace for u32 {
    ghost use Rattle.std.specs.Prelude.{nat_lt};
    ghost use Rattle.vcode.specs.Named.{is_below};
    ghost use Rattle.vcode.specs.Places.{virtual};

    ghost exists = { is_below };

    ghost near = { λ register. nat_lt register 128 };

    ghost apart = { virtual };

    fn exists(self, count: u32) -> bool {
        self < count
    }

    fn is_near(self) -> bool {
        self < 128
    }

    fn is_same(self, other: u32) -> bool {
        self == other
    }
}

impl CodePlace for Location {
    ghost use Rattle.vcode.specs.Named.{is_place, is_near};
    ghost use Rattle.vcode.specs.Places.{located};

    ghost exists = { is_place };

    ghost near = { is_near };

    ghost apart = { located };

    fn exists(self, count: u32) -> bool {
        match self {
            Location::Register(number) => {
                abi::FIRST_TEMPORARY <= number && number <= abi::LAST_SAVED
            }
            Location::Slot(slot) => slot < count,
        }
    }

    fn is_near(self) -> bool {
        match self {
            Location::Register(_) => true,
            Location::Slot(slot) => slot < 128,
        }
    }

    fn is_same(self, other: Location) -> bool {
        match (self, other) {
            (Location::Register(number), Location::Register(other)) => number == other,
            (Location::Slot(slot), Location::Slot(other)) => slot == other,
            _ => false,
        }
    }
}
