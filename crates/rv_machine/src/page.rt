//! A page of memory.

ghost use Rattle.std.specs.Prelude.{◌≡◌, ◌≤◌, length};

/// How many bytes a page has.
pub const PAGE_SIZE: u64 = 4096;

/// The bytes of a page that was made, and whether those of its places from `low` up to `high` may all be read, and written.
#[derive(Drop)]
pub struct Page {
    pub bytes: Vec<u8>,
    pub low: usize,
    pub high: usize,
    pub readable: bool,
    pub writable: bool,
    ghost whole: { length bytes.items ≡ 4096 },
    ghost inside: { high ≤ 4096 },
}
