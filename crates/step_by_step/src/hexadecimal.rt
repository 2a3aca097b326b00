//! Bytes that a table has in hexadecimal digits.
use std::alloc::{AllocError, Global};

/// The bytes of a text in which `~` and two hexadecimal digits stand for a byte.
pub fn bytes_of(alloc: Global, text: &str) -> Result<Vec<u8>, AllocError> {
    let (front, rest) = text.split_once('~').unwrap_or((text, ""));
    let mut bytes = Vec::from_slice(alloc, front.as_bytes())?;
    for part in rest.split('~') {
        let (digits, behind) = part.split_at_checked(2).unwrap_or(("", part));
        if let Ok(byte) = u8::from_str_radix(digits, 16) {
            bytes.push(byte)?;
        }
        bytes.extend_from_slice(behind.as_bytes())?;
    }
    Ok(bytes)
}
