//! How runs end, in words.
ghost use Rattle.std.specs.Prelude.{◌≡◌, ◌||◌, [], codes, IfOk, bytes_eq, string_bytes};

use std::alloc::{AllocError, Global};
use std::str;

/// How a run ended, and what it put out.
#[derive(Drop)]
pub struct Told {
    pub end: String,
    pub output: Vec<u8>,
}

impl Told {
    /// An end without output: of what didn't run.
    pub fn unrun(alloc: Global, why: &str) -> Result<Told, AllocError>
        ensures end { IfOk result (λ t. string_bytes t.end ≡ why.now) }
        ensures output { IfOk result (λ t. t.output.items ≡ []) }
    {
        Ok(Told {
            end: String::from_str(alloc, why)?,
            output: Vec::new(alloc),
        })
    }

    /// The output where it is a text, and the end.
    pub fn shown(&self, alloc: Global) -> Result<String, AllocError> {
        let output = str::from_utf8(self.output.as_slice()).unwrap_or("bytes");
        let end = self.end.as_str();
        format!(in alloc; "{output:?} and {end}")
    }

    /// Whether the program had no more meaning, or no more stack: after that the machine may do anything.
    pub fn is_lost(&self) -> bool
        ensures { result ≡ (bytes_eq (string_bytes self.now.end) (codes "undefined") || bytes_eq (string_bytes self.now.end) (codes "stack")) }
    {
        self.end.as_str() == "undefined" || self.end.as_str() == "stack"
    }
}
