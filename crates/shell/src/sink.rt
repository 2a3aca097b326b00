//! Where bytes go out.
ghost use Rattle.std.specs.Prelude.{◌≡◌};
ghost use Rattle.shell.specs.Sink.{counted, failed_call};

/// A call of [`Sink::put`] failed: it took no byte.
#[derive(Clone, Copy, Debug, PartialEq, Eq, thiserror::Error)]
#[error("a write failed")]
pub struct SinkFault;

/// Something that takes bytes: a file, a standard stream, or memory.
pub trait Sink {
    ghost use Rattle.std.specs.Prelude.{◌≡◌};
    ghost use Rattle.shell.specs.Sink.{SinkState, Puts, counted};

    /// The bytes that it holds, where it tells them: memory does, a file doesn't. And how many of its calls failed, or took none of some bytes, so far; at most
    /// 2^64 - 1.
    ghost told: { Self → SinkState };

    /// Takes some of the bytes, always the first ones, and answers how many.
    ///
    /// # Errors
    ///
    /// A fault says that none was taken.
    fn put(&mut self, bytes: &[u8]) -> Result<usize, SinkFault>
        ensures puts { Puts (told self.old) (told self.new) bytes.now result }
        ensures counts { (told self.new).faults ≡ counted (told self.old).faults bytes.now result };
}

/// Whether a call of [`Sink::put`] with these bytes failed: it met a fault, or took none of some bytes.
pub fn is_failed(bytes: &[u8], answer: Result<usize, SinkFault>) -> bool
    ensures { result ≡ failed_call bytes.now answer }
{
    match answer {
        Ok(count) => bytes.len() > 0 && count == 0,
        Err(_) => true,
    }
}

/// How many calls failed after one with these bytes, which answered so; at most 2^64 - 1.
pub fn counted(faults: u64, bytes: &[u8], answer: Result<usize, SinkFault>) -> u64
    ensures { result ≡ counted faults bytes.now answer }
{
    if is_failed(bytes, answer) {
        faults.saturating_add(1)
    } else {
        faults
    }
}
