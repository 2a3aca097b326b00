//! A writer of the system, as a sink.
ghost use Rattle.std.specs.Prelude.{◌≡◌, ◌≤◌, length, IfOk};
ghost use Rattle.std.specs.Io.KnownBytes.{WriteAppends};

use crate::sink::{Sink, SinkFault, counted};
use std::io::{ErrorKind, Write};

/// A file or a standard stream, with the count of its calls that failed. It tells what its writer holds, where that is known; of the writers of the system it is not known.
#[derive(Drop)]
pub struct Stream<W: Write> {
    pub writer: W,
    faults: u64,
}

impl<W: Write> Stream<W> {
    /// The writer as a sink, of which no call has failed so far.
    pub fn new(writer: W) -> Stream<W>
        ensures writer { result.writer ≡ writer }
        ensures faults { result.faults ≡ 0 }
    {
        Stream { writer, faults: 0 }
    }
}

/// Writes some of the bytes; again where a signal came between.
fn write_some<W: Write>(writer: &mut W, bytes: &[u8]) -> Result<usize, SinkFault>
    ensures fits { IfOk result (λ count. count ≤ length bytes.now) }
    ensures takes { WriteAppends (W.contents writer.old) (W.contents writer.new) result bytes.now }
{
    for _ in 0..u64::MAX {
        match writer.write(bytes) {
            Ok(count) => return Ok(count),
            Err(error) => {
                if error.kind() != ErrorKind::Interrupted {
                    return Err(SinkFault);
                }
            }
        }
    }
    Err(SinkFault)
}

impl<W: Write> Sink for Stream<W> {
    ghost told = { λ s. record { held = W.contents s.writer; faults = s.faults } };

    fn put(&mut self, bytes: &[u8]) -> Result<usize, SinkFault> {
        let answer = write_some(&mut self.writer, bytes);
        self.faults = counted(self.faults, bytes, answer);
        answer
    }
}
