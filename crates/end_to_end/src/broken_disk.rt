//! Files in memory, of which one is broken.
use shell::{Access, Disk, Faults, FileFault, MemoryDisk};
use std::alloc::{AllocError, Global};

/// Files in memory. The path `broken` meets `fault`.
#[derive(Drop)]
pub struct BrokenDisk {
    files: MemoryDisk,
    pub fault: FileFault,
    faults: Faults,
    alloc: Global,
}

impl BrokenDisk {
    pub fn new(alloc: Global) -> BrokenDisk {
        BrokenDisk {
            files: MemoryDisk::new(alloc),
            fault: FileFault::Device,
            faults: Faults::none(alloc),
            alloc,
        }
    }

    /// Keeps a file of these bytes.
    pub fn store(&mut self, path: &str, bytes: &[u8]) -> Result<(), AllocError> {
        self.files.store(path, bytes)
    }

    /// How often a file was kept or written so far.
    pub fn kept(&self) -> usize {
        self.files.files.len()
    }

    /// The bytes of the file at the path.
    pub fn find(&self, path: &str) -> Option<&[u8]> {
        self.files.find(path)
    }
}

impl Disk for BrokenDisk {
    ghost use Rattle.std.specs.Prelude.{None};
    ghost use Rattle.shell.specs.Disk.{told_faults};

    ghost told = { λ s. record { files = None; faults = told_faults s.faults } };

    fn read(&mut self, path: &str) -> Result<Vec<u8>, FileFault> {
        let answer = if path == "broken" {
            Err(self.fault)
        } else {
            self.files.read(path)
        };
        match answer {
            Ok(bytes) => Ok(bytes),
            Err(fault) => Err(self.faults.note(self.alloc, Access::Read, path, fault)),
        }
    }

    fn write(&mut self, path: &str, bytes: &[u8]) -> Result<(), FileFault> {
        let answer = if path == "broken" {
            Err(self.fault)
        } else {
            self.files.write(path, bytes)
        };
        match answer {
            Ok(()) => Ok(()),
            Err(fault) => Err(self.faults.note(self.alloc, Access::Write, path, fault)),
        }
    }
}
