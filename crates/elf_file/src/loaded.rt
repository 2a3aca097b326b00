ghost use Rattle.std.specs.Prelude.{◌≡◌};

use crate::flags::Flags;
use std::marker::Model;

/// A segment as it stands in memory: file bytes from its address on, and then zeros up to its size.
#[derive(Drop)]
pub struct Segment {
    address: u64,
    flags: Flags,
    size: u64,
    file_bytes: Vec<u8>,
}

impl Model for Segment {
    ghost use Rattle.elf_file.specs.Conditions.{IsMapping, Mapping};

    ghost Value = { Mapping };

    ghost view = { λ s. record { address = s.address; flags = s.flags; size = s.size; file_bytes = s.file_bytes.items } };

    ghost invariant = { λ s. IsMapping (record { address = s.address; flags = s.flags; size = s.size; file_bytes = s.file_bytes.items }) };
}

impl Segment {
    ghost use Rattle.elf_file.specs.Conditions.{IsMapping};

    /// The segment of these values.
    pub(crate) fn new(address: u64, flags: Flags, size: u64, file_bytes: Vec<u8>) -> Segment
        requires { IsMapping (record { address = address; flags = flags; size = size; file_bytes = file_bytes.items }) }
        ensures { result ≡ record { address = address; flags = flags; size = size; file_bytes = file_bytes.items } }
    {
        Segment {
            address,
            flags,
            size,
            file_bytes,
        }
    }

    /// The address of its first byte.
    pub fn address(&self) -> u64
        ensures value { result ≡ self.now.address }
        ensures mapping { IsMapping self.now }
    {
        self.address
    }

    /// What its bytes may be used for.
    pub fn flags(&self) -> Flags
        ensures value { result ≡ self.now.flags }
        ensures mapping { IsMapping self.now }
    {
        self.flags
    }

    /// How many bytes it has in memory.
    pub fn size(&self) -> u64
        ensures value { result ≡ self.now.size }
        ensures mapping { IsMapping self.now }
    {
        self.size
    }

    /// Its bytes that the file holds, from its address on; those after them are zeros.
    pub fn file_bytes(&self) -> &[u8]
        ensures value { result.now ≡ self.now.file_bytes }
        ensures mapping { IsMapping self.now }
    {
        self.file_bytes.as_slice()
    }
}

/// What a file loads as: its segments in rising order, and the address of the first instruction.
#[derive(Drop)]
pub struct Loaded {
    entry: u64,
    segments: Vec<Segment>,
}

impl Model for Loaded {
    ghost use Rattle.elf_file.specs.Conditions.{Executable, IsExecutable};

    ghost Value = { Executable };

    ghost view = { λ x. record { entry = x.entry; mappings = x.segments.items } };

    ghost invariant = { λ x. IsExecutable (record { entry = x.entry; mappings = x.segments.items }) };
}

impl Loaded {
    ghost use Rattle.elf_file.specs.Conditions.{IsExecutable};

    /// The loaded file of this entry and these segments.
    pub(crate) fn new(entry: u64, segments: Vec<Segment>) -> Loaded
        requires { IsExecutable (record { entry = entry; mappings = segments.items }) }
        ensures { result ≡ record { entry = entry; mappings = segments.items } }
    {
        Loaded { entry, segments }
    }

    /// The address of the first instruction.
    pub fn entry(&self) -> u64
        ensures value { result ≡ self.now.entry }
        ensures executable { IsExecutable self.now }
    {
        self.entry
    }

    /// The segments, by rising address.
    pub fn segments(&self) -> &[Segment]
        ensures value { result.now ≡ self.now.mappings }
        ensures executable { IsExecutable self.now }
    {
        self.segments.as_slice()
    }
}
