//! The commands, over files and streams in memory.
use crate::broken_disk::BrokenDisk;
use commands::command::command;
use regalloc::linear_scan::LinearScan;
use shell::MemorySink;
use std::alloc::{AllocError, Global};
use std::str;

/// What a command answered and wrote.
#[derive(Drop)]
pub struct Done {
    pub status: u8,
    pub output: Vec<u8>,
    pub message: String,
}

impl Done {
    /// The status and the line.
    pub fn line(&self, alloc: Global) -> Result<String, AllocError> {
        let status = self.status;
        let message = self.message.as_str().trim_end();
        format!(in alloc; "{status} {message}")
    }
}

/// Does what the words ask for, with these streams.
pub fn perform_with(
    alloc: Global,
    disk: &mut BrokenDisk,
    words: &[&str],
    mut out: MemorySink,
    mut err: MemorySink,
) -> Result<Done, AllocError> {
    let mut allocator = LinearScan::new(alloc);
    let status = command(alloc, words, &mut allocator, disk, &mut out, &mut err);
    let message = str::from_utf8(err.bytes.as_slice()).unwrap_or("no text");
    Ok(Done {
        status,
        message: String::from_str(alloc, message)?,
        output: out.bytes,
    })
}

/// Does what the words ask for, with streams that take everything.
pub fn perform(alloc: Global, disk: &mut BrokenDisk, words: &[&str]) -> Result<Done, AllocError> {
    let out = MemorySink::new(alloc, 1 << 30, 0);
    let err = MemorySink::new(alloc, 1, 0);
    perform_with(alloc, disk, words, out, err)
}

/// The same for words between spaces.
pub fn perform_words(
    alloc: Global,
    disk: &mut BrokenDisk,
    words: &str,
) -> Result<Done, AllocError> {
    let words: Vec<&str> = words.split(' ').collect(alloc)?;
    perform(alloc, disk, words.as_slice())
}

/// The status and the line that the words give.
pub fn line_of_words(
    alloc: Global,
    disk: &mut BrokenDisk,
    words: &str,
) -> Result<String, AllocError> {
    perform_words(alloc, disk, words)?.line(alloc)
}
