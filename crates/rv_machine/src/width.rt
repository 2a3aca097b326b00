//! How many bytes a load or a store moves.

ghost use Rattle.std.specs.Prelude.{◌≡◌};

/// The sizes of loads and stores.
#[derive(Clone, Copy)]
pub enum Width {
    /// 1 byte.
    Byte,
    /// 2 bytes.
    Half,
    /// 4 bytes.
    Word,
    /// 8 bytes.
    Double,
}

impl Width {
    ghost use Rattle.rv_machine.specs.Width.{bytes_of};

    /// The number of bytes.
    #[inline(always)]
    pub fn bytes(self) -> u64
        ensures { result ≡ bytes_of self }
    {
        match self {
            Width::Byte => 1,
            Width::Half => 2,
            Width::Word => 4,
            Width::Double => 8,
        }
    }
}
