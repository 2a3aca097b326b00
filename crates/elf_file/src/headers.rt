ghost use Rattle.std.specs.Prelude.{◌≡◌, ◌+◌, ◌≤◌, length};
ghost use Rattle.elf_file.specs.Conditions.{field, file_header, program_header_at};

use byteorder::{ByteOrder, LittleEndian};

/// The size of a file's header in bytes (`e_ehsize`).
pub const FILE_HEADER_SIZE: usize = 64;

/// The size of a program header in bytes (`e_phentsize`).
pub const PROGRAM_HEADER_SIZE: usize = 56;

/// The first sixteen bytes of a file of 64-bit class, lowest byte first, version 1, for no particular system.
pub const E_IDENT: [u8; 16] = [0x7f, b'E', b'L', b'F', 2, 1, 1, 0, 0, 0, 0, 0, 0, 0, 0, 0];

/// The header of an ELF64 file, but for its first sixteen bytes, `e_ident`, by the names of its fields.
#[derive(Clone, Copy)]
pub struct FileHeader {
    pub e_type: u16,
    pub e_machine: u16,
    pub e_version: u32,
    pub e_entry: u64,
    pub e_phoff: u64,
    pub e_shoff: u64,
    pub e_flags: u32,
    pub e_ehsize: u16,
    pub e_phentsize: u16,
    pub e_phnum: u16,
    pub e_shentsize: u16,
    pub e_shnum: u16,
    pub e_shstrndx: u16,
}

/// A program header of an ELF64 file, by the names of its fields: one segment.
#[derive(Clone, Copy)]
pub struct ProgramHeader {
    pub p_type: u32,
    pub p_flags: u32,
    pub p_offset: u64,
    pub p_vaddr: u64,
    pub p_paddr: u64,
    pub p_filesz: u64,
    pub p_memsz: u64,
    pub p_align: u64,
}

/// The `Elf64_Half` at `offset`: the number in its two bytes, the lowest first.
#[tactic(auto, unfolding(crate::specs::Conditions::field))]
fn half(file: &[u8], offset: usize) -> u16
    requires { offset + 2 ≤ length file.now }
    ensures { result ≡ field 2 offset file.now }
{
    LittleEndian::read_u16(&file[offset..])
}

/// The `Elf64_Word` at `offset`: the number in its four bytes, the lowest first.
#[tactic(auto, unfolding(crate::specs::Conditions::field))]
fn word(file: &[u8], offset: usize) -> u32
    requires { offset + 4 ≤ length file.now }
    ensures { result ≡ field 4 offset file.now }
{
    LittleEndian::read_u32(&file[offset..])
}

/// The `Elf64_Xword`, `Elf64_Addr` or `Elf64_Off` at `offset`: the number in its eight bytes, the lowest first.
#[tactic(auto, unfolding(crate::specs::Conditions::field))]
fn xword(file: &[u8], offset: usize) -> u64
    requires { offset + 8 ≤ length file.now }
    ensures { result ≡ field 8 offset file.now }
{
    LittleEndian::read_u64(&file[offset..])
}

/// The header of a file of at least 64 bytes.
#[tactic(auto, unfolding(crate::specs::Conditions::file_header))]
pub fn file_header(file: &[u8]) -> FileHeader
    requires { 64 ≤ length file.now }
    ensures { result ≡ file_header file.now }
{
    FileHeader {
        e_type: half(file, 16),
        e_machine: half(file, 18),
        e_version: word(file, 20),
        e_entry: xword(file, 24),
        e_phoff: xword(file, 32),
        e_shoff: xword(file, 40),
        e_flags: word(file, 48),
        e_ehsize: half(file, 52),
        e_phentsize: half(file, 54),
        e_phnum: half(file, 56),
        e_shentsize: half(file, 58),
        e_shnum: half(file, 60),
        e_shstrndx: half(file, 62),
    }
}

/// The program header whose 56 bytes begin at `offset`.
#[tactic(auto, unfolding(crate::specs::Conditions::program_header_at))]
pub fn program_header_at(file: &[u8], offset: usize) -> ProgramHeader
    requires { offset + 56 ≤ length file.now }
    ensures { result ≡ program_header_at file.now offset }
{
    ProgramHeader {
        p_type: word(file, offset),
        p_flags: word(file, offset + 4),
        p_offset: xword(file, offset + 8),
        p_vaddr: xword(file, offset + 16),
        p_paddr: xword(file, offset + 24),
        p_filesz: xword(file, offset + 32),
        p_memsz: xword(file, offset + 40),
        p_align: xword(file, offset + 48),
    }
}
