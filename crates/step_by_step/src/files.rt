//! Files of executables: that of a program that exits with 0, as it is written, and what is read of it once bytes are changed.
use elf_file::{Loaded, read_image, write_image};
use obj_link::{Image, SLOT};
use std::alloc::Global;
use text_maker::{TextMaker, say};

/// `addi x10, x0, 0`, `addi x17, x0, 93` and `ecall`.
const EXIT: [u32; 3] = [0x0000_0513, 0x05d0_0893, 0x0000_0073];

/// The file of an executable of this code and data, of which there is little.
pub fn file_of(alloc: Global, code: Vec<u32>, data: Vec<u8>) -> Option<Vec<u8>> {
    if code.is_empty() || code.len() > 1024 || data.len() > 1024 || data.len() % SLOT != 0 {
        return None;
    }
    write_image(alloc, &Image::new(code, data)).ok()
}

/// The file of the program, with so many bytes of data, each of them 7.
fn exit_file(alloc: Global, size: usize) -> Option<Vec<u8>> {
    let code = EXIT.to_vec(alloc).ok()?;
    let data = vec![in alloc; 7u8; size].ok()?;
    file_of(alloc, code, data)
}

fn add_bytes(out: &mut TextMaker, bytes: &[u8]) {
    for byte in bytes {
        say!(out; " {byte:02x}");
    }
    out.add("\n");
}

fn number_of(digits: &str) -> usize {
    digits.parse::<usize>().unwrap_or(usize::MAX)
}

/// The file with so many bytes of data: each row of sixteen bytes that has one other than 0, and how many bytes there are.
pub fn written(alloc: Global, size: &str) -> Option<String> {
    let file = exit_file(alloc, number_of(size))?;
    let mut out = TextMaker::new(alloc);
    for (number, row) in file.as_slice().chunks(16).enumerate() {
        if row.iter().any(|byte| *byte != 0) {
            say!(out; "{:02x}:", number.saturating_mul(16));
            add_bytes(&mut out, row);
        }
    }
    say!(out; "{} bytes", file.len());
    out.finish().ok()
}

/// Changes a file as a line says: the offset of a byte and what stands there, or `cut` and the length.
fn change(file: &mut Vec<u8>, line: &str) {
    match line.split_once(' ') {
        Some(("cut", length)) => file.truncate(number_of(length)),
        Some((offset, byte)) => {
            if let Some(place) = file.get_mut(number_of(offset)) {
                *place = byte.parse::<u8>().unwrap_or(0);
            }
        }
        None => {}
    }
}

fn segments(alloc: Global, loaded: &Loaded) -> Option<String> {
    let mut out = TextMaker::new(alloc);
    say!(out; "entry {:02x}\n", loaded.entry());
    for segment in loaded.segments() {
        let (address, size) = (segment.address(), segment.size());
        say!(out; "{address:02x}, {size} bytes, {:?}:", segment.flags());
        add_bytes(&mut out, segment.file_bytes());
    }
    out.finish().ok()
}

/// The segments of the file with 16 bytes of data once it is changed, or why it is refused.
pub fn loaded(alloc: Global, changes: &str) -> Option<String> {
    let mut file = exit_file(alloc, SLOT)?;
    for line in changes.lines() {
        change(&mut file, line);
    }
    match read_image(alloc, file.as_slice()) {
        Ok(loaded) => segments(alloc, &loaded),
        Err(error) => format!(in alloc; "{error}").ok(),
    }
}
