//! Files.
ghost use Rattle.std.specs.Prelude.{◌≡◌, ◌++◌, ◌∷◌, [], map, OnOk, OnErr};
ghost use Rattle.shell.specs.declared.disk.FileFault.TheVariants.{Device, Memory};
ghost use Rattle.shell.specs.Sink.{one_more};
ghost use Rattle.shell.specs.Disk.{no_failed_calls, noted, told_faults, with_fault};

use std::alloc::{AllocError, Global};

/// Why a file could not be read or written.
#[derive(Clone, Copy, Debug, PartialEq, Eq, thiserror::Error)]
pub enum FileFault {
    /// The device or the file system refused, or the disk itself, as one does that writes over no file that was read.
    #[error("the device refused")]
    Device,
    /// Memory was refused.
    #[error("out of memory")]
    Memory,
}

/// What a disk is asked to do with a file.
#[derive(Clone, Copy, PartialEq, Eq)]
pub enum Access {
    Read,
    Write,
}

/// A call of a disk that the device or the file system refused.
#[derive(Drop)]
pub struct RefusedCall {
    pub access: Access,
    pub path: String,
}

/// The calls of a disk that failed so far.
#[derive(Drop)]
pub struct Faults {
    /// those that the device or the file system refused, in order
    pub device: Vec<RefusedCall>,
    /// how many there were for which memory was refused; at most 2^64 - 1
    pub memory: u64,
}

impl Faults {
    /// Those of a disk of which no call has failed.
    pub fn none(alloc: Global) -> Faults
        ensures { told_faults result ≡ no_failed_calls }
    {
        Faults {
            device: Vec::new(alloc),
            memory: 0,
        }
    }

    fn push_refused(&mut self, alloc: Global, access: Access, path: &str) -> Result<(), AllocError>
        ensures pushed { OnOk result (map noted self.new.device.items ≡ map noted self.old.device.items ++ record { access = access; path = path.now } ∷ []) }
        ensures same { OnErr result (map noted self.new.device.items ≡ map noted self.old.device.items) }
        ensures memory { self.new.memory ≡ self.old.memory }
    {
        let path = String::from_str(alloc, path)?;
        self.device.push(RefusedCall { access, path })?;
        Ok(())
    }

    fn count_memory(&mut self) -> FileFault
        ensures is { result ≡ Memory }
        ensures counts { self.new ≡ record self.old { memory = one_more self.old.memory } }
    {
        self.memory = self.memory.saturating_add(1);
        FileFault::Memory
    }

    /// Notes that a call failed so, and answers why it failed: where the device refused and there is no memory to note that, memory was refused.
    pub fn note(&mut self, alloc: Global, access: Access, path: &str, fault: FileFault) -> FileFault
        ensures { told_faults self.new ≡ with_fault result (record { access = access; path = path.now }) (told_faults self.old) }
    {
        match fault {
            FileFault::Device => match self.push_refused(alloc, access, path) {
                Ok(()) => FileFault::Device,
                Err(_) => self.count_memory(),
            },
            FileFault::Memory => self.count_memory(),
        }
    }
}

/// Files by their paths.
pub trait Disk {
    ghost use Rattle.std.specs.Prelude.{◌≡◌, IfOk, OnOk};
    ghost use Rattle.shell.specs.declared.disk.Access.TheVariants.{Read, Write};
    ghost use Rattle.shell.specs.Disk.{DiskState, Holds, Spares, counted};

    /// What its files hold, where it tells that: files in memory can, those of a system don't. And which of its calls failed so far: those that the device or the file
    /// system refused, each with its path, and how many memory was refused for.
    ghost told: { Self → DiskState };

    /// All bytes of a file.
    ///
    /// # Errors
    ///
    /// Where the device or the file system refused, or memory.
    fn read(&mut self, path: &str) -> Result<Vec<u8>, FileFault>
        ensures holds { IfOk result (λ v. Holds (told self.old).files path.now v.items) }
        ensures same { (told self.new).files ≡ (told self.old).files }
        ensures counts { (told self.new).faults ≡ counted (told self.old).faults (record { access = Read; path = path.now }) result };

    /// Writes a file of these bytes, in the place of one that is there. After a fault it may hold a beginning of them.
    ///
    /// # Errors
    ///
    /// Where the device or the file system refused, or memory.
    fn write(&mut self, path: &str, bytes: &[u8]) -> Result<(), FileFault>
        ensures holds { OnOk result (Holds (told self.new).files path.now bytes.now) }
        ensures spares { Spares (told self.old).files (told self.new).files path.now }
        ensures counts { (told self.new).faults ≡ counted (told self.old).faults (record { access = Write; path = path.now }) result };

    /// Why the call failed that was the last one to fail, in words for people; none where that isn't known.
    fn why(&self) -> &'static str {
        ""
    }
}
