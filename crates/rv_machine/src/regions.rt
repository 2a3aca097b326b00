//! Memory as a list of regions.

ghost use Rattle.std.specs.Prelude.{◌≡◌, ◌≢◌, ℕ, ◌+◌, ◌-◌, ◌≤◌, ◌<◌, ◌^◌, ◌∷◌, ◌++◌, [], drop, true, IfOk, IfSome, MatchOption, Some, length, position, slice_index, vec_len, max};
ghost use Rattle.byteorder.specs.Endian.{little_bytes, little_number};
ghost use Rattle.rv_machine.specs.Width.{bytes_of};
ghost use Rattle.rv_machine.specs.Starts.{permission_of};

use crate::width::Width;
use byteorder::{ByteOrder, LittleEndian};
use elf_file::{Flags, Loaded, Segment};
use rv_isa::Permission;
use std::alloc::{AllocError, Global};

/// Addresses side by side with one permission. Past its bytes stand zeros, up to its size.
#[derive(Drop)]
pub struct Region {
    pub address: u64,
    pub size: u64,
    pub permission: Permission,
    pub bytes: Vec<u8>,
    ghost short: { length bytes.items ≤ size },
    ghost ends: { address + size < 2 ^ 63 },
}

/// What is allowed where no memory is.
pub const NOTHING_ALLOWED: Permission = Permission {
    readable: false,
    writable: false,
    executable: false,
};

/// What a segment's flags permit.
pub fn permission_of(flags: Flags) -> Permission
    ensures { result ≡ permission_of flags }
{
    Permission {
        readable: flags.is_readable(),
        writable: flags.is_writable(),
        executable: flags.is_executable(),
    }
}

/// The bytes, and zeros after them up to `size` bytes if that is more.
pub fn filled(alloc: Global, bytes: &[u8], size: usize) -> Result<Vec<u8>, AllocError>
    ensures number { IfOk result (λ v. length v.items ≡ max size (length bytes.now)) }
    ensures bytes { IfOk result (λ v. (i : ℕ) → slice_index v.items i ≡ slice_index bytes.now i) }
{
    let all = size.max(bytes.len());
    let mut filled = Vec::with_capacity(alloc, all)?;
    filled.extend_from_slice(bytes)?;
    filled.resize(all, 0)?;
    Ok(filled)
}

/// The number in the first bytes, lowest first.
#[inline(always)]
pub fn number(bytes: &[u8], width: Width) -> u64
    requires { bytes_of width ≤ length bytes.now }
    ensures value { result ≡ little_number (bytes_of width) bytes.now }
    ensures small { result < 256 ^ bytes_of width }
{
    match width {
        Width::Byte => u64::from(bytes[0]),
        Width::Half => u64::from(LittleEndian::read_u16(bytes)),
        Width::Word => u64::from(LittleEndian::read_u32(bytes)),
        Width::Double => LittleEndian::read_u64(bytes),
    }
}

/// Writes the low bytes of a number over the first bytes, lowest first.
#[inline(always)]
pub fn write_number(bytes: &mut [u8], width: Width, value: u64)
    requires { bytes_of width ≤ length bytes.old }
    ensures { bytes.new ≡ little_bytes (bytes_of width) value ++ drop (bytes_of width) bytes.old }
{
    match width {
        Width::Byte => bytes[0] = (value & 0xff) as u8,
        Width::Half => LittleEndian::write_u16(bytes, (value & 0xffff) as u16),
        Width::Word => LittleEndian::write_u32(bytes, (value & 0xffff_ffff) as u32),
        Width::Double => LittleEndian::write_u64(bytes, value),
    }
}
