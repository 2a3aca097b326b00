ghost use Rattle.std.specs.Prelude.{◌≡◌, ◌++◌, OnOk};
ghost use Rattle.elf_file.specs.File.{code_bytes, fields_bytes};

use crate::fields::Field;
use byteorder::{ByteOrder, LittleEndian};
use std::alloc::AllocError;

/// Appends the bytes of the fields, in order.
pub fn push_fields(file: &mut Vec<u8>, fields: &[Field]) -> Result<(), AllocError>
    ensures { OnOk result (file.new.items ≡ file.old.items ++ fields_bytes fields.now) }
{
    for field in fields {
        field.push_to(file)?;
    }
    Ok(())
}

/// Appends the words, the lowest byte of each first.
pub fn push_words(file: &mut Vec<u8>, words: &[u32]) -> Result<(), AllocError>
    ensures { OnOk result (file.new.items ≡ file.old.items ++ code_bytes words.now) }
{
    let mut bytes = [0; 4];
    for word in words {
        LittleEndian::write_u32(&mut bytes, *word);
        file.extend_from_slice(&bytes)?;
    }
    Ok(())
}
