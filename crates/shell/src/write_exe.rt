//! All bytes, written.
ghost use Rattle.std.specs.Prelude.{OnOk, IfErr, OnErr, map};
ghost use Rattle.std.specs.List.{concat};
ghost use Rattle.shell.specs.Sink.{Sends, Stops, StopsIn, Breaks};

use crate::sink::Sink;

/// A sink failed, or took no byte, after so many.
#[derive(Clone, Copy, Debug, PartialEq, Eq, thiserror::Error)]
#[error("a write failed after {written} bytes")]
pub struct WriteFault {
    pub written: usize,
}

/// Writes all of `bytes`.
///
/// Where the sink tells its bytes: after Ok it holds all of `bytes` after those that it held, and after a fault a beginning of them, of the length that
/// the fault names.
///
/// # Errors
///
/// A fault comes only where a call of the sink failed or took no byte.
pub fn write_exe<S: Sink>(bytes: &[u8], out: &mut S) -> Result<(), WriteFault>
    ensures all { OnOk result (Sends (S.told out.old) (S.told out.new) bytes.now) }
    ensures some { IfErr result (λ fault. Stops (S.told out.old) (S.told out.new) bytes.now fault.written) }
{
    let mut written = 0;
    while written < bytes.len() {
        match out.put(&bytes[written..]) {
            Ok(0) => return Err(WriteFault { written }),
            Ok(count) => written += count,
            Err(_) => return Err(WriteFault { written }),
        }
    }
    Ok(())
}

/// Writes all of the parts, one after another, as [`write_exe`] writes one.
///
/// # Errors
///
/// A fault comes only where a call of the sink failed or took no byte. It names how many bytes of its part went out.
pub fn write_parts<S: Sink>(parts: &[&[u8]], out: &mut S) -> Result<(), WriteFault>
    ensures all { OnOk result (Sends (S.told out.old) (S.told out.new) (concat (map (λ p. p.now) parts.now))) }
    ensures some { OnErr result (Breaks (S.told out.old) (S.told out.new) (concat (map (λ p. p.now) parts.now))) }
    ensures within { IfErr result (λ fault. StopsIn (S.told out.old) (S.told out.new) (map (λ p. p.now) parts.now) fault.written) }
{
    for part in parts {
        write_exe(*part, out)?;
    }
    Ok(())
}
