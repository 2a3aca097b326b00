ghost use Rattle.std.specs.Prelude.{◌≡◌, ◌+◌, ◌*◌, ◌≤◌, ◌^◌, ◌<◌, length, IfErr, IfOk, MatchResult};
ghost use Rattle.obj_link.specs.Prelude.{code_start};
ghost use Rattle.elf_file.specs.Conditions.{file_header, Executable, has_entry, holds_instruction, HasHeaders, Loads, Maps, MapsAll, has_one_table, is_kind, is_loadable, is_placed, is_whole, Refuses, RefusesSegment};

use crate::error::LoadError;
use crate::flags::Flags;
use crate::headers::{
    E_IDENT, FILE_HEADER_SIZE, FileHeader, PROGRAM_HEADER_SIZE, ProgramHeader, file_header,
    program_header_at,
};
use crate::loaded::{Loaded, Segment};
use obj_link::{CODE_START, IMAGE_END, PAGE};
use std::alloc::Global;

/// Whether the header is one of an executable for RISC-V, with headers of the sizes of ELF64.
fn is_kind(h: &FileHeader) -> bool
    ensures { result ≡ is_kind h.now }
{
    h.e_type == 2
        && h.e_machine == 243
        && h.e_version == 1
        && h.e_flags == 0
        && h.e_ehsize == 64
        && h.e_phentsize == 56
}

/// Whether the header tells of one to sixteen program headers right after it, and of no section headers.
fn has_one_table(h: &FileHeader) -> bool
    ensures { result ≡ has_one_table h.now }
{
    h.e_phoff == 64
        && h.e_shoff == 0
        && 0 < h.e_phnum
        && h.e_phnum <= 16
        && h.e_shentsize == 0
        && h.e_shnum == 0
        && h.e_shstrndx == 0
}

/// Whether the values of a program header are ones that are taken.
fn is_loadable(h: &ProgramHeader) -> bool
    ensures { result ≡ is_loadable h.now }
{
    h.p_type == 1
        && Flags::from_number(h.p_flags).is_some()
        && h.p_paddr == h.p_vaddr
        && h.p_align == PAGE
        && h.p_offset % PAGE == h.p_vaddr % PAGE
        && 0 < h.p_memsz
        && h.p_filesz <= h.p_memsz
}

/// Whether the segment's bytes are all in the file.
fn is_whole(file: &[u8], h: &ProgramHeader) -> bool
    ensures { result ≡ is_whole file.now h.now }
{
    let length = file.len() as u64;
    h.p_offset <= length && h.p_filesz <= length - h.p_offset
}

/// Whether the segment stands at or above `low`, and below the stack.
fn is_placed(low: u64, h: &ProgramHeader) -> bool
    ensures { result ≡ is_placed low h.now }
{
    low <= h.p_vaddr && h.p_vaddr <= IMAGE_END && h.p_memsz <= IMAGE_END - h.p_vaddr
}

/// The file's header, where the file has it and all program headers that it tells of.
fn read_file_header(file: &[u8]) -> Result<FileHeader, LoadError>
    ensures header { MatchResult result (λ h. (h ≡ file_header file.now) × HasHeaders file.now) (λ e. Refuses e file.now) }
{
    if file.len() < 64 {
        return Err(LoadError::CutOff);
    }
    let header = file_header(file);
    if !file.starts_with(&E_IDENT) || !is_kind(&header) {
        return Err(LoadError::OtherKind);
    }
    if !has_one_table(&header) {
        return Err(LoadError::OutOfRange);
    }
    if file.len() < 64 + 56 * header.e_phnum as usize {
        return Err(LoadError::CutOff);
    }
    Ok(header)
}

/// The segment of a program header, where that keeps the conditions; `low` is the lowest address that it may have.
fn read_segment(
    alloc: Global,
    file: &[u8],
    low: u64,
    h: &ProgramHeader,
) -> Result<Segment, LoadError>
    requires { code_start ≤ low }
    ensures segment { MatchResult result (λ m. Maps file.now low h.now m) (λ e. RefusesSegment e file.now low h.now) }
{
    let Some(flags) = Flags::from_number(h.p_flags) else {
        return Err(LoadError::OutOfRange);
    };
    if !is_loadable(h) {
        return Err(LoadError::OutOfRange);
    }
    if !is_whole(file, h) {
        return Err(LoadError::CutOff);
    }
    if !is_placed(low, h) {
        return Err(LoadError::Misplaced);
    }
    let bytes = &file[h.p_offset as usize..][..h.p_filesz as usize];
    let file_bytes = bytes.to_vec(alloc)?;
    Ok(Segment::new(h.p_vaddr, flags, h.p_memsz, file_bytes))
}

/// The segments of the file's `count` program headers, in order, where each keeps the conditions.
fn read_segments(alloc: Global, file: &[u8], count: usize) -> Result<Vec<Segment>, LoadError>
    requires headers { HasHeaders file.now }
    requires number { count ≡ (file_header file.now).e_phnum }
    ensures segments { MatchResult result (λ v. MapsAll file.now count v.items) (λ e. Refuses e file.now) }
{
    let mut segments = Vec::with_capacity(alloc, count)?;
    let mut low = CODE_START;
    for k in 0..count {
        let header = program_header_at(file, FILE_HEADER_SIZE + PROGRAM_HEADER_SIZE * k);
        let segment = read_segment(alloc, file, low, &header)?;
        low = segment.address() + segment.size();
        segments.push(segment)?;
    }
    Ok(segments)
}

/// Whether an instruction at this address lies in the segment and may be executed.
fn holds_instruction(address: u64, segment: &Segment) -> bool
    ensures { result ≡ holds_instruction address segment.now }
{
    let end = segment.address() + segment.size();
    segment.flags().is_executable()
        && segment.address() <= address
        && address < end
        && 4 <= end - address
}

/// Whether one of the segments has the first instruction of a program that starts at `entry`.
fn has_entry(entry: u64, segments: &[Segment]) -> bool
    ensures { result ≡ has_entry entry segments.now }
{
    segments
        .iter()
        .any(|segment| holds_instruction(entry, segment))
}

/// What the file loads as, or why it does not.
fn load(alloc: Global, file: &[u8]) -> Result<Loaded, LoadError>
    ensures loads { MatchResult result (λ x. Loads file.now x) (λ e. Refuses e file.now) }
{
    let header = read_file_header(file)?;
    let segments = read_segments(alloc, file, header.e_phnum as usize)?;
    if header.e_entry % 4 != 0 || !has_entry(header.e_entry, &segments) {
        return Err(LoadError::BadEntry);
    }
    Ok(Loaded::new(header.e_entry, segments))
}

/// What an executable file loads as.
///
/// A file is accepted exactly where it keeps each condition of `Loads`: an ELF64 executable for RISC-V with one table of program headers and no
/// more, whose segments are loaded in rising order below the stack.
///
/// # Errors
///
/// - [`LoadError::CutOff`] where the file has fewer than 64 bytes, or its program headers or a segment's bytes pass its end.
/// - [`LoadError::OtherKind`] where `e_ident`, `e_type`, `e_machine`, `e_version`, `e_flags`, `e_ehsize` or `e_phentsize` is another's.
/// - [`LoadError::OutOfRange`] where another field of the file's header, or a field of a program header, is none that is taken.
/// - [`LoadError::Misplaced`] where the segments are not in rising order without overlap, or one lies outside the addresses of images.
/// - [`LoadError::BadEntry`] where the entry is not a multiple of 4, or not in one segment that may be executed.
/// - [`LoadError::Memory`] where memory was refused.
///
/// Where several hold, which of them is answered is left open.
pub fn read_image(alloc: Global, file: &[u8]) -> Result<Loaded, LoadError>
    ensures loads { MatchResult result (λ x. Loads file.now x) (λ e. Refuses e file.now) }

    // What the file loads as is one thing, and a file that loads is refused for want of memory only.
    ensures only { IfOk result (λ x. (y : Executable) → Loads file.now y → y ≡ x) }
    ensures refused { IfErr result (λ e. (y : Executable) → Loads file.now y → e ≡ LoadError.Memory) }
{
    load(alloc, file)
}
