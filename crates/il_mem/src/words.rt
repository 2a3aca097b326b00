//! Numbers in bytes, lowest first.
ghost use Rattle.std.specs.Prelude.{◌≡◌, ◌+◌, ◌≤◌, ◌++◌, length, take, drop, vec_capacity};
ghost use Rattle.il_ast.specs.Prelude.{byte_count};
ghost use Rattle.byteorder.specs.Endian.{little_bytes, little_number};

use byteorder::{ByteOrder, LittleEndian};
use il_ast::Size;

/// How many bytes a size is.
pub fn bytes_in(size: Size) -> usize
    ensures { result ≡ byte_count size }
{
    match size {
        Size::Byte => 1,
        Size::Half => 2,
        Size::Word => 4,
        Size::Long => 8,
    }
}

/// The number in the first bytes.
pub fn little(bytes: &[u8], size: Size) -> u64
    requires { byte_count size ≤ length bytes.now }
    ensures { result ≡ little_number (byte_count size) bytes.now }
{
    match size {
        Size::Byte => u64::from(bytes[0]),
        Size::Half => u64::from(LittleEndian::read_u16(bytes)),
        Size::Word => u64::from(LittleEndian::read_u32(bytes)),
        Size::Long => LittleEndian::read_u64(bytes),
    }
}

/// Writes the low bytes of a number over the first bytes.
fn write_little(bytes: &mut [u8], size: Size, number: u64)
    requires { byte_count size ≤ length bytes.old }
    ensures { bytes.new ≡ little_bytes (byte_count size) number ++ drop (byte_count size) bytes.old }
{
    match size {
        Size::Byte => bytes[0] = (number & 0xff) as u8,
        Size::Half => LittleEndian::write_u16(bytes, (number & 0xffff) as u16),
        Size::Word => LittleEndian::write_u32(bytes, (number & 0xffff_ffff) as u32),
        Size::Long => LittleEndian::write_u64(bytes, number),
    }
}

/// Writes the low bytes of a number over the bytes from a place on.
pub fn overwrite(bytes: &mut Vec<u8>, to: usize, size: Size, number: u64)
    requires { to + byte_count size ≤ length bytes.old.items }
    ensures bytes { bytes.new.items ≡ take to bytes.old.items ++ (little_bytes (byte_count size) number ++ drop (byte_count size) (drop to bytes.old.items)) }
    ensures capacity { vec_capacity bytes.new ≡ vec_capacity bytes.old }
{
    write_little(&mut bytes.as_mut_slice()[to..], size, number);
}
