//! The lines of a disassembly, for small files.
use elf_file::read_image;
use shell::dis_lines::dis_lines;
use std::alloc::{AllocError, Global};
use std::fmt::Write;
use std::process::Abort;

/// A file of one segment of these bytes, with these flags, with its entry at the segment's start.
fn file_of(alloc: Global, flags: u8, bytes: &[u8], size: u8) -> Result<Vec<u8>, AllocError> {
    let mut file = Vec::new(alloc);
    file.extend_from_slice(b"\x7fELF\x02\x01\x01\0\0\0\0\0\0\0\0\0")?;
    file.extend_from_slice(b"\x02\0\xf3\0\x01\0\0\0\0\0\x01\0\0\0\0\0")?;
    file.extend_from_slice(b"\x40\0\0\0\0\0\0\0\0\0\0\0\0\0\0\0")?;
    file.extend_from_slice(b"\0\0\0\0\x40\0\x38\0\x01\0\0\0\0\0\0\0")?;
    let length = (bytes.len() % 0x100) as u8;
    file.extend_from_slice(&[1, 0, 0, 0, flags, 0, 0, 0])?;
    file.extend_from_slice(b"\0\x10\0\0\0\0\0\0")?;
    file.extend_from_slice(b"\0\0\x01\0\0\0\0\0\0\0\x01\0\0\0\0\0")?;
    file.extend_from_slice(&[length, 0, 0, 0, 0, 0, 0, 0])?;
    file.extend_from_slice(&[size, 0, 0, 0, 0, 0, 0, 0])?;
    file.extend_from_slice(b"\0\x10\0\0\0\0\0\0")?;
    file.resize(4096, 0)?;
    file.extend_from_slice(bytes)?;
    Ok(file)
}

/// Stops the test where the lines of such a file, one after another, are others.
fn is_shown(
    rt: &(impl Abort + AllocGlobal),
    flags: u8,
    bytes: &[u8],
    size: u8,
    expected: &str,
) -> Result<(), AllocError> {
    let alloc = rt.alloc();
    let file = file_of(alloc, flags, bytes, size)?;
    let mut all = String::new(alloc);
    match read_image(alloc, file.as_slice()) {
        Ok(loaded) => {
            for line in &dis_lines(alloc, &loaded)? {
                all.push_str(line.as_str())?;
            }
        }
        Err(error) => write!(all, "{error}")?,
    }
    assert_eq!(rt; all.as_str(), expected);
    Ok(())
}

#[test]
fn lines_of_code(rt: HostRuntime) -> Result<(), AllocError> {
    let code = b"\x13\x05\0\0\xef\xf0\xdf\xff\x1b\x15\x05\x02\x13\x01";
    let expected = "00010000  00000513  addi x10, x0, 0
00010004  ffdff0ef  jal x1, -4
00010008  0205151b  ?
";
    is_shown(&rt, 1, code, 14, expected)?;
    is_shown(&rt, 5, code, 100, expected)?;
    is_shown(&rt, 1, b"\0\0\0\0", 4, "00010000  00000000  ?\n")?;
    is_shown(&rt, 1, b"\x13", 4, "")?;
    is_shown(&rt, 1, b"\x13", 3, "L5")
}
