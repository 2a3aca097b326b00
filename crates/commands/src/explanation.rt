//! Words behind the line of a failure.
use crate::failure::Failure;
use crate::file_words::file_words;
use crate::tell::file_number;
use crate::verdict::{Verdict, judge};
use crate::verdict_lines::verdict_lines;
use elf_file::read_image;
use shell::Disk;
use std::alloc::{AllocError, Global};

/// Lines that say in words why a command fails, each with its line end, where that is asked for. They are gathered before it fails, and told only then; where memory for
/// them is refused there are none. No contract says more of them.
#[derive(Drop)]
pub struct Explanation {
    alloc: Global,
    is_asked: bool,
    lines: Vec<String>,
}

impl Explanation {
    /// No line yet.
    pub fn new(alloc: Global, is_asked: bool) -> Explanation {
        Explanation {
            alloc,
            is_asked,
            lines: Vec::new(alloc),
        }
    }

    /// The lines.
    pub fn lines(&self) -> &[String] {
        self.lines.as_slice()
    }

    /// Adds what is wrong with texts of these paths.
    pub fn add_texts(&mut self, paths: &[&str], texts: &[&[u8]]) {
        if self.is_asked
            && let Ok(lines) = refusal_lines(self.alloc, paths, texts)
        {
            self.lines = lines;
        }
    }

    /// Adds what is wrong with an executable file of this path.
    pub fn add_file(&mut self, path: &str, bytes: &[u8]) {
        if self.is_asked
            && let Err(error) = read_image(self.alloc, bytes)
        {
            let words = file_words(error, bytes);
            let code = file_number(error);
            self.add_line(format!(in self.alloc; "{path}: error: {words} [{code}]\n"));
        }
    }

    /// Adds why a file couldn't be read or written.
    pub fn add_fault<D: Disk>(&mut self, failure: &Failure<'_>, disk: &D) {
        let path = match failure {
            Failure::Unread(path) | Failure::Unwritten(path) => *path,
            _ => return,
        };
        let why = disk.why();
        if why.len() > 0 {
            self.add_line(format!(in self.alloc; "{path}: error: {why}\n"));
        }
    }

    fn add_line(&mut self, line: Result<String, AllocError>) {
        if let Ok(line) = line {
            let _ = self.lines.push(line);
        }
    }
}

/// The lines of texts that are no program, or none.
fn refusal_lines(
    alloc: Global,
    paths: &[&str],
    texts: &[&[u8]],
) -> Result<Vec<String>, AllocError> {
    let verdict = judge(alloc, paths, texts)?;
    match &verdict {
        Verdict::Refused(_) => verdict_lines(alloc, paths, &verdict),
        Verdict::Sound(_) => Ok(Vec::new(alloc)),
    }
}
