//! Files in memory.
ghost use Rattle.std.specs.Prelude.{◌≡◌, ◌↔◌, [], Some, None, Err, IfOk, OnOk, OnErr, option_map};
ghost use Rattle.shell.specs.declared.disk.FileFault.TheVariants.{Device};
ghost use Rattle.shell.specs.Disk.{Holds, Spares, no_failed_calls, told_faults};
ghost use Rattle.shell.specs.MemoryDisk.{first_at};

use crate::disk::{Access, Disk, Faults, FileFault};
use std::alloc::{AllocError, Global};

/// A file in memory.
#[derive(Drop)]
pub struct MemoryFile {
    pub path: String,
    pub bytes: Vec<u8>,
}

/// Files in memory, the newest first. It tells what they hold.
#[derive(Drop)]
pub struct MemoryDisk {
    pub files: Vec<MemoryFile>,
    pub faults: Faults,
    alloc: Global,
}

impl MemoryDisk {
    /// A disk without files.
    pub fn new(alloc: Global) -> MemoryDisk
        ensures empty { result.files.items ≡ [] }
        ensures faults { told_faults result.faults ≡ no_failed_calls }
    {
        MemoryDisk {
            files: Vec::new(alloc),
            faults: Faults::none(alloc),
            alloc,
        }
    }

    /// Keeps a file of these bytes, in the place of one that is there.
    ///
    /// # Errors
    ///
    /// Only where memory was refused; then all files are as they were.
    pub fn store(&mut self, path: &str, bytes: &[u8]) -> Result<(), AllocError>
        ensures holds { OnOk result (first_at self.new.files.items path.now ≡ Some bytes.now) }
        ensures spares { Spares (Some (first_at self.old.files.items)) (Some (first_at self.new.files.items)) path.now }
        ensures same { OnErr result (self.new.files.items ≡ self.old.files.items) }
        ensures faults { self.new.faults ≡ self.old.faults }
    {
        let path = String::from_str(self.alloc, path)?;
        let bytes = bytes.to_vec(self.alloc)?;
        self.files.insert(0, MemoryFile { path, bytes })?;
        Ok(())
    }

    /// The bytes of the file at the path.
    pub fn find(&self, path: &str) -> Option<&[u8]>
        ensures { option_map (λ b. b.now) result ≡ first_at self.now.files.items path.now }
    {
        for file in &self.files {
            if file.path.as_str() == path {
                return Some(file.bytes.as_slice());
            }
        }
        None
    }

    fn copy_of(&self, path: &str) -> Result<Vec<u8>, FileFault>
        ensures found { IfOk result (λ v. first_at self.now.files.items path.now ≡ Some v.items) }
        ensures missing { (first_at self.now.files.items path.now ≡ None) ↔ (result ≡ Err Device) }
    {
        match self.find(path) {
            Some(bytes) => match bytes.to_vec(self.alloc) {
                Ok(bytes) => Ok(bytes),
                Err(_) => Err(FileFault::Memory),
            },
            None => Err(FileFault::Device),
        }
    }
}

impl Disk for MemoryDisk {
    ghost told = { λ s. record { files = Some (first_at s.files.items); faults = told_faults s.faults } };

    fn read(&mut self, path: &str) -> Result<Vec<u8>, FileFault> {
        let alloc = self.alloc;
        match self.copy_of(path) {
            Ok(bytes) => Ok(bytes),
            Err(fault) => Err(self.faults.note(alloc, Access::Read, path, fault)),
        }
    }

    fn write(&mut self, path: &str, bytes: &[u8]) -> Result<(), FileFault> {
        let alloc = self.alloc;
        match self.store(path, bytes) {
            Ok(()) => Ok(()),
            Err(_) => Err(
                self.faults
                    .note(alloc, Access::Write, path, FileFault::Memory),
            ),
        }
    }
}
