ghost use Rattle.std.specs.Prelude.{◌≡◌, ◌++◌, ◌*◌, ◌<◌, ◌≤◌, ◌^◌, List, length, IfOk, OnOk, vec_len, flat_map};
ghost use Rattle.obj_link.specs.Prelude.{IsImage};
ghost use Rattle.elf_file.specs.Conditions.{Stands, Loads, e_ident};
ghost use Rattle.elf_file.specs.File.{data_offset, executable_of, fields_bytes, file_header_fields, file_of, header_for, headers_bytes, padded, program_header_fields, segment_header, with_code};

use crate::fields::Field;
use crate::flags::Flags;
use crate::headers::{E_IDENT, FILE_HEADER_SIZE, FileHeader, PROGRAM_HEADER_SIZE, ProgramHeader};
use crate::push::{push_fields, push_words};
use obj_link::{CODE_START, Image, PAGE};
use std::alloc::{AllocError, Global};

/// The header of an executable for RISC-V with `count` segments.
fn header_for(count: u16) -> FileHeader
    ensures { result ≡ header_for count }
{
    FileHeader {
        e_type: 2,
        e_machine: 243,
        e_version: 1,
        e_entry: CODE_START,
        e_phoff: FILE_HEADER_SIZE as u64,
        e_shoff: 0,
        e_flags: 0,
        e_ehsize: FILE_HEADER_SIZE as u16,
        e_phentsize: PROGRAM_HEADER_SIZE as u16,
        e_phnum: count,
        e_shentsize: 0,
        e_shnum: 0,
        e_shstrndx: 0,
    }
}

/// The program header of a segment whose `size` bytes stand at `offset` in the file.
fn segment_header(flags: Flags, offset: u64, address: u64, size: u64) -> ProgramHeader
    ensures { result ≡ segment_header flags offset address size }
{
    ProgramHeader {
        p_type: 1,
        p_flags: flags.number(),
        p_offset: offset,
        p_vaddr: address,
        p_paddr: address,
        p_filesz: size,
        p_memsz: size,
        p_align: PAGE,
    }
}

/// Appends the file's header.
fn push_file_header(file: &mut Vec<u8>, h: &FileHeader) -> Result<(), AllocError>
    ensures { OnOk result (file.new.items ≡ file.old.items ++ (e_ident ++ fields_bytes (file_header_fields h.now))) }
{
    file.extend_from_slice(&E_IDENT)?;
    let fields = [
        Field::Half(h.e_type),
        Field::Half(h.e_machine),
        Field::Word(h.e_version),
        Field::Xword(h.e_entry),
        Field::Xword(h.e_phoff),
        Field::Xword(h.e_shoff),
        Field::Word(h.e_flags),
        Field::Half(h.e_ehsize),
        Field::Half(h.e_phentsize),
        Field::Half(h.e_phnum),
        Field::Half(h.e_shentsize),
        Field::Half(h.e_shnum),
        Field::Half(h.e_shstrndx),
    ];
    push_fields(file, &fields)?;
    Ok(())
}

/// Appends a program header.
fn push_program_header(file: &mut Vec<u8>, h: &ProgramHeader) -> Result<(), AllocError>
    ensures { OnOk result (file.new.items ≡ file.old.items ++ fields_bytes (program_header_fields h.now)) }
{
    let fields = [
        Field::Word(h.p_type),
        Field::Word(h.p_flags),
        Field::Xword(h.p_offset),
        Field::Xword(h.p_vaddr),
        Field::Xword(h.p_paddr),
        Field::Xword(h.p_filesz),
        Field::Xword(h.p_memsz),
        Field::Xword(h.p_align),
    ];
    push_fields(file, &fields)?;
    Ok(())
}

/// Appends zeros up to `size` bytes.
#[tactic(auto, unfolding(crate::specs::File::padded))]
fn pad(file: &mut Vec<u8>, size: usize) -> Result<(), AllocError>
    requires { vec_len file.old ≤ size }
    ensures { OnOk result (file.new.items ≡ padded size file.old.items) }
{
    file.resize(size, 0)?;
    Ok(())
}

/// Appends the program headers, in order.
fn push_program_headers(file: &mut Vec<u8>, headers: &[ProgramHeader]) -> Result<(), AllocError>
    ensures { OnOk result (file.new.items ≡ file.old.items ++ flat_map (λ h. fields_bytes (program_header_fields h)) headers.now) }
{
    for header in headers {
        push_program_header(file, header)?;
    }
    Ok(())
}

/// A file with these program headers and the image's code on the page after them, in a `Vec` that has room for `size` bytes.
fn file_with_code(
    alloc: Global,
    image: &Image,
    headers: &[ProgramHeader],
    size: usize,
) -> Result<Vec<u8>, AllocError>
    requires { length headers.now ≤ 2 }
    ensures { IfOk result (λ v. v.items ≡ with_code image.now (headers_bytes headers.now)) }
{
    let mut file = Vec::with_capacity(alloc, size)?;
    push_file_header(&mut file, &header_for(headers.len() as u16))?;
    push_program_headers(&mut file, headers)?;
    pad(&mut file, PAGE as usize)?;
    push_words(&mut file, image.code())?;
    Ok(file)
}

/// The offset at which the file has the data: the page after the code.
fn data_offset(image: &Image) -> u64
    ensures value { result ≡ data_offset image.now }
    ensures image { IsImage image.now }
{
    PAGE + image.code_size().next_multiple_of(PAGE)
}

/// The file of an image, in a `Vec` of just its size.
///
/// It has the file's header and a program header for each segment; on its second page the words of the code, which can only be executed; and where
/// there is data, on the page after the code, the data, which can be read and written. All else is zeros. [`read_image`](crate::read_image) reads it
/// back.
///
/// # Errors
///
/// Only where memory was refused.
pub fn write_image(alloc: Global, image: &Image) -> Result<Vec<u8>, AllocError>
    ensures file { IfOk result (λ v. v.items ≡ file_of image.now) }
    ensures loads { IfOk result (λ v. Loads v.items (executable_of image.now)) }

    // What the file loads as is the image: each word and each byte at its address, and nothing else.
    ensures stands { IfOk result (λ _. Stands image.now (executable_of image.now)) }
{
    let data_bytes = image.data();
    let offset = data_offset(image);
    let size = data_bytes.len() as u64;
    let code = segment_header(Flags::Execute, PAGE, CODE_START, image.code_size());
    if data_bytes.is_empty() {
        let file = file_with_code(alloc, image, &[code], (PAGE + image.code_size()) as usize)?;
        return Ok(file);
    }
    let headers = [
        code,
        segment_header(Flags::ReadWrite, offset, image.data_start(), size),
    ];
    let mut file = file_with_code(alloc, image, &headers, (offset + size) as usize)?;
    pad(&mut file, offset as usize)?;
    file.extend_from_slice(data_bytes)?;
    Ok(file)
}
