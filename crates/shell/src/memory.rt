//! A sink in memory.
ghost use Rattle.std.specs.Prelude.{◌≡◌, ◌+◌, ◌-◌, ◌^◌, ◌++◌, [], Some, IfOk, OnErr, IsErr, length, min, take};
ghost use Rattle.shell.specs.Sink.{Puts, counted};

use crate::sink::{Sink, SinkFault, counted};
use std::alloc::Global;

/// Memory that takes at most `most` bytes a call, and none at call `fails_at`, counted from 1.
#[derive(Drop)]
pub struct MemorySink {
    pub bytes: Vec<u8>,
    /// how many calls there were
    pub calls: u64,
    /// how many of them failed, or took none of some bytes
    pub faults: u64,
    most: usize,
    fails_at: u64,
}

impl MemorySink {
    /// An empty one. With `fails_at` 0 no call fails but for want of memory.
    pub fn new(alloc: Global, most: usize, fails_at: u64) -> MemorySink
        ensures empty { result.bytes.items ≡ [] }
        ensures calls { result.calls ≡ 0 }
        ensures faults { result.faults ≡ 0 }
        ensures most { result.most ≡ most }
        ensures fails_at { result.fails_at ≡ fails_at }
    {
        MemorySink {
            bytes: Vec::new(alloc),
            calls: 0,
            faults: 0,
            most,
            fails_at,
        }
    }

    /// Takes the first `most` of the bytes, or all where they are fewer; none at call `fails_at`.
    fn take_some(&mut self, bytes: &[u8]) -> Result<usize, SinkFault>
        ensures takes { IfOk result (λ n. (n ≡ min (length bytes.now) self.old.most) × (self.new.bytes.items ≡ self.old.bytes.items ++ take n bytes.now)) }
        ensures nothing { OnErr result (self.new.bytes.items ≡ self.old.bytes.items) }
        ensures fails { self.old.calls ≡ self.old.fails_at → IsErr result }
        ensures calls { self.new.calls ≡ self.old.calls }
        ensures faults { self.new.faults ≡ self.old.faults }
        ensures set { (self.new.most ≡ self.old.most) × (self.new.fails_at ≡ self.old.fails_at) }
    {
        if self.calls == self.fails_at {
            return Err(SinkFault);
        }
        let count = bytes.len().min(self.most);
        match self.bytes.extend_from_slice(&bytes[..count]) {
            Ok(()) => Ok(count),
            Err(_) => Err(SinkFault),
        }
    }
}

impl Sink for MemorySink {
    ghost use Rattle.std.specs.Prelude.{Some};

    ghost told = { λ s. record { held = Some s.bytes.items; faults = s.faults } };

    /// Takes the first `most` of the bytes, or all where they are fewer.
    ///
    /// # Errors
    ///
    /// At call `fails_at`, and where memory was refused.
    fn put(&mut self, bytes: &[u8]) -> Result<usize, SinkFault>
        ensures puts { Puts (record { held = Some self.old.bytes.items; faults = self.old.faults }) (record { held = Some self.new.bytes.items; faults = self.new.faults }) bytes.now result }
        ensures counts { self.new.faults ≡ counted self.old.faults bytes.now result }
        ensures few { IfOk result (λ n. n ≡ min (length bytes.now) self.old.most) }
        ensures fails { self.new.calls ≡ self.old.fails_at → IsErr result }
        ensures calls { self.new.calls ≡ min (self.old.calls + 1) (2 ^ 64 - 1) }
        ensures set { (self.new.most ≡ self.old.most) × (self.new.fails_at ≡ self.old.fails_at) }
    {
        self.calls = self.calls.saturating_add(1);
        let answer = self.take_some(bytes);
        self.faults = counted(self.faults, bytes, answer);
        answer
    }
}
