ghost use Rattle.std.specs.Prelude.{◌≡◌, ◌++◌, OnOk};

use byteorder::{ByteOrder, LittleEndian};
use std::alloc::AllocError;

/// A field of a header, by the data types of ELF64. Its bytes stand lowest first.
#[derive(Clone, Copy)]
pub enum Field {
    /// `Elf64_Half`, two bytes.
    Half(u16),
    /// `Elf64_Word`, four bytes.
    Word(u32),
    /// `Elf64_Xword`, `Elf64_Addr` and `Elf64_Off`, eight bytes.
    Xword(u64),
}

impl Field {
    ghost use Rattle.elf_file.specs.File.{field_bytes};

    /// Appends the bytes of the field to the file.
    pub fn push_to(self, file: &mut Vec<u8>) -> Result<(), AllocError>
        ensures { OnOk result (file.new.items ≡ file.old.items ++ field_bytes self) }
    {
        let mut bytes = [0; 8];
        match self {
            Field::Half(n) => {
                LittleEndian::write_u16(&mut bytes, n);
                file.extend_from_slice(&bytes[..2])?;
            }
            Field::Word(n) => {
                LittleEndian::write_u32(&mut bytes, n);
                file.extend_from_slice(&bytes[..4])?;
            }
            Field::Xword(n) => {
                LittleEndian::write_u64(&mut bytes, n);
                file.extend_from_slice(&bytes)?;
            }
        }
        Ok(())
    }
}
