//! The files of the system.
ghost use Rattle.std.specs.Prelude.{◌≡◌, ◌↔◌, IfOk, IsTrue};
ghost use Rattle.std.specs.Fs.{permissions_mode};
ghost use Rattle.std.specs.Io.KnownBytes.{Appends};
ghost use Rattle.std.specs.IoError.{error_kind};
ghost use Rattle.shell.specs.Disk.{no_failed_calls, told_faults};
ghost use Rattle.shell.specs.SystemFaults.{fault_of};
ghost use Rattle.shell.specs.SystemFiles.{executable_mode};

use crate::disk::{Access, Disk, Faults, FileFault};
use crate::system::stream::Stream;
use crate::write_exe::write_exe;
use std::alloc::Global;
use std::fs::{Metadata, Permissions};
use std::io::{Error, ErrorKind, Read, Write};
use std::os::unix::fs::{MetadataExt, PermissionsExt};
use std::rt::Files;
use std::{fs, io};

/// What stands for standard input in the place of a file that is read. No file of this name is written.
const STANDARD_INPUT: &str = "-";

/// How many bytes are read of what is no plain file, and may have no end: more than any text has, and any executable that is built.
const LONGEST_STREAM: u64 = 0x400_0000;

/// Which file it is, whatever path leads to it.
#[derive(Clone, Copy)]
struct FileId {
    /// what it is kept on
    device: u64,
    /// its number there
    number: u64,
}

impl FileId {
    /// That of the file of which the system tells this.
    fn of(metadata: &Metadata) -> FileId {
        FileId {
            device: metadata.dev(),
            number: metadata.ino(),
        }
    }
}

/// Whether the two are one file.
fn is_same_file(one: FileId, other: FileId) -> bool
    ensures { IsTrue result ↔ (one ≡ other) }
{
    one.device == other.device && one.number == other.number
}

/// Whether a file is one of these.
fn is_among(file: FileId, files: &[FileId]) -> bool {
    for other in files {
        if is_same_file(*other, file) {
            return true;
        }
    }
    false
}

/// The files of the system, and which calls failed. A file that was read isn't written, nor is standard output: that counts as the device's fault. So does a write that
/// the system breaks off in its midst, also where it says that it was for want of memory.
#[derive(Drop)]
pub struct HostFiles<'r, R> {
    rt: &'r R,
    faults: Faults,
    /// the plain files that were read
    inputs: Vec<FileId>,
    /// why a call failed last
    why: &'static str,
}

/// Why a call of the system failed, for programs and for people.
#[derive(Clone, Copy)]
struct Failed {
    fault: FileFault,
    why: &'static str,
}

/// The same of an error of the system.
fn failure_of(error: &Error) -> Failed {
    Failed {
        fault: fault_of(error),
        why: reason(error.kind()),
    }
}

fn reason(kind: ErrorKind) -> &'static str {
    match kind {
        ErrorKind::NotFound => "there is no such file",
        ErrorKind::PermissionDenied => "there is no right to it",
        ErrorKind::IsADirectory => "it is a directory",
        ErrorKind::NotADirectory => "a part of its path is no directory",
        ErrorKind::FileTooLarge => "it is too long",
        ErrorKind::StorageFull | ErrorKind::QuotaExceeded => "no room is left for it",
        ErrorKind::ReadOnlyFilesystem => "its file system can only be read",
        ErrorKind::ExecutableFileBusy => "it is being executed",
        _ => "the system refused it",
    }
}

impl<'r, R: Files + Input + AllocGlobal> HostFiles<'r, R> {
    /// Those of this process, of which no call has failed so far.
    pub fn new(rt: &'r R) -> HostFiles<'r, R>
        ensures { told_faults result.faults ≡ no_failed_calls }
    {
        HostFiles {
            rt,
            faults: Faults::none(rt.alloc()),
            inputs: Vec::new(rt.alloc()),
            why: "",
        }
    }

    /// All bytes of a file, or of standard input.
    fn read_input(&mut self, path: &str) -> io::Result<Vec<u8>>
        ensures { self.new.faults ≡ self.old.faults }
    {
        if path == STANDARD_INPUT {
            return read_stream(self.rt.alloc(), self.rt.reader());
        }
        let metadata = fs::metadata(self.rt, path)?;
        if !metadata.is_file() {
            return read_stream(self.rt.alloc(), fs::open(self.rt, path)?);
        }
        if self.inputs.push(FileId::of(&metadata)).is_err() {
            return Err(Error::from(ErrorKind::OutOfMemory));
        }
        fs::read(self.rt, path)
    }

    /// Writes a file, if it isn't one that was read, nor standard output.
    fn write_output(&self, path: &str, bytes: &[u8]) -> Result<(), Failed> {
        if path == STANDARD_INPUT {
            return Err(Failed {
                fault: FileFault::Device,
                why: "an executable is written to a file, and not to standard output",
            });
        }
        if self.is_input(path) {
            return Err(Failed {
                fault: FileFault::Device,
                why: "it was read, and isn't written over",
            });
        }
        write_file(self.rt, path, bytes)
    }

    /// Whether a path leads to a file that was read.
    fn is_input(&self, path: &str) -> bool {
        match fs::metadata(self.rt, path) {
            Ok(metadata) => is_among(FileId::of(&metadata), self.inputs.as_slice()),
            Err(_) => false,
        }
    }
}

/// All bytes of a stream. One with too many is an error, since it may have no end.
fn read_stream<S: Read + Drop>(alloc: Global, stream: S) -> io::Result<Vec<u8>> {
    let mut bytes = Vec::new(alloc);
    let mut start = stream.take(LONGEST_STREAM + 1);
    start.read_to_end(&mut bytes)?;
    if bytes.len() as u64 > LONGEST_STREAM {
        return Err(Error::from(ErrorKind::FileTooLarge));
    }
    Ok(bytes)
}

/// Memory or the device, by the kind of an error.
fn fault_of(error: &Error) -> FileFault
    ensures { result ≡ fault_of (error_kind error.now) }
{
    match error.kind() {
        ErrorKind::OutOfMemory => FileFault::Memory,
        _ => FileFault::Device,
    }
}

/// The mode with which those who may read a file may execute it too.
fn executable_mode(mode: u32) -> u32
    ensures { result ≡ executable_mode mode }
{
    mode | (mode & 0o444) >> 2
}

/// The permissions with which those who may read a file may execute it too.
fn executable(permissions: Permissions) -> Permissions
    ensures { permissions_mode result ≡ executable_mode (permissions_mode permissions) }
{
    Permissions::from_mode(executable_mode(permissions.mode()))
}

/// Lets those who may read a file execute it, as other compilers do. What is no plain file, as a device, stays as it is.
fn make_executable<R: Files>(rt: &R, path: &str) -> io::Result<()> {
    let metadata = fs::metadata(rt, path)?;
    if metadata.is_file() {
        fs::set_permissions(rt, path, executable(metadata.permissions()))?;
    }
    Ok(())
}

/// Writes all bytes to a new file, and answers the stream that took them.
fn write_to<W: Write + Drop>(file: W, bytes: &[u8]) -> Result<Stream<W>, FileFault>
    ensures { IfOk result (λ stream. Appends (W.contents file) (W.contents stream.writer) bytes.now) }
{
    let mut stream = Stream::new(file);
    match write_exe(bytes, &mut stream) {
        Ok(()) => Ok(stream),
        Err(_) => Err(FileFault::Device),
    }
}

fn write_file<R: Files + AllocGlobal>(rt: &R, path: &str, bytes: &[u8]) -> Result<(), Failed> {
    let file = match fs::create(rt, path) {
        Ok(file) => file,
        Err(error) => return Err(failure_of(&error)),
    };
    match write_to(file, bytes) {
        Ok(_file) => {
            // The file is whole; on a file system that has no such permissions it can be executed or not as it is.
            let _ = make_executable(rt, path);
            Ok(())
        }
        Err(fault) => Err(Failed {
            fault,
            why: "the system took a part of it alone",
        }),
    }
}

impl<R: Files + Input + AllocGlobal> Disk for HostFiles<'_, R> {
    ghost use Rattle.std.specs.Prelude.{None};

    ghost told = { λ s. record { files = None; faults = told_faults s.faults } };

    fn read(&mut self, path: &str) -> Result<Vec<u8>, FileFault> {
        let alloc = self.rt.alloc();
        match self.read_input(path) {
            Ok(bytes) => Ok(bytes),
            Err(error) => {
                let failed = failure_of(&error);
                self.why = failed.why;
                Err(self.faults.note(alloc, Access::Read, path, failed.fault))
            }
        }
    }

    fn write(&mut self, path: &str, bytes: &[u8]) -> Result<(), FileFault> {
        let alloc = self.rt.alloc();
        match self.write_output(path, bytes) {
            Ok(()) => Ok(()),
            Err(failed) => {
                self.why = failed.why;
                Err(self.faults.note(alloc, Access::Write, path, failed.fault))
            }
        }
    }

    fn why(&self) -> &'static str {
        self.why
    }
}
