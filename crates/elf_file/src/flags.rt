ghost use Rattle.std.specs.Prelude.{◌≡◌};

/// What the bytes of a segment may be used for: the four sums of `PF_X` (1), `PF_W` (2) and `PF_R` (4) that a file's `p_flags` may hold.
#[derive(Clone, Copy, PartialEq, Eq, Debug)]
pub enum Flags {
    /// Executed only: 1.
    Execute,
    /// Read only: 4.
    Read,
    /// Read and executed: 5.
    ReadExecute,
    /// Read and written: 6.
    ReadWrite,
}

impl Flags {
    ghost use Rattle.elf_file.specs.Conditions.{flags_of, is_executable, is_readable, is_writable};
    ghost use Rattle.elf_file.specs.File.{flags_number};

    /// The flags of a `p_flags`; `None` for a number that is none of the four.
    pub(crate) fn from_number(p_flags: u32) -> Option<Flags>
        ensures { result ≡ flags_of p_flags }
    {
        match p_flags {
            1 => Some(Flags::Execute),
            4 => Some(Flags::Read),
            5 => Some(Flags::ReadExecute),
            6 => Some(Flags::ReadWrite),
            _ => None,
        }
    }

    /// The `p_flags` of these flags.
    pub(crate) fn number(self) -> u32
        ensures { result ≡ flags_number self }
    {
        match self {
            Flags::Execute => 1,
            Flags::Read => 4,
            Flags::ReadExecute => 5,
            Flags::ReadWrite => 6,
        }
    }

    /// Whether the bytes may be read as data.
    pub fn is_readable(self) -> bool
        ensures { result ≡ is_readable self }
    {
        self != Flags::Execute
    }

    /// Whether the bytes may be written.
    pub fn is_writable(self) -> bool
        ensures { result ≡ is_writable self }
    {
        self == Flags::ReadWrite
    }

    /// Whether the bytes may be executed.
    pub fn is_executable(self) -> bool
        ensures { result ≡ is_executable self }
    {
        matches!(self, Flags::Execute | Flags::ReadExecute)
    }
}
