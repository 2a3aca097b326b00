//! Files and standard output, with the failures that they meet.
ghost use Rattle.std.specs.Prelude.{◌≡◌, ◌⊎◌, map, IfOk, OnOk, OnErr, IfErr, string_bytes};
ghost use Rattle.std.specs.List.{concat};
ghost use Rattle.shell.specs.Disk.{Holds, Spares};
ghost use Rattle.shell.specs.Sink.{Sends, Breaks};
ghost use Rattle.commands.specs.declared.failure.Failure.TheVariants.{Memory, Output};
ghost use Rattle.commands.specs.Parts.{AllHold, IsUnread, IsUnwritten, MissesFile};

use crate::failure::Failure;
use shell::write_exe::write_exe;
use shell::{Disk, FileFault, Sink};
use std::alloc::{AllocError, Global};

/// All bytes of a file.
pub(crate) fn read<'a, D: Disk>(disk: &mut D, path: &'a str) -> Result<Vec<u8>, Failure<'a>>
    ensures holds { IfOk result (λ v. Holds (D.told disk.old).files path.now v.items) }
    ensures same { OnOk result (D.told disk.new ≡ D.told disk.old) }
    ensures fault { IfErr result (IsUnread (D.told disk.old) (D.told disk.new) path.entry) }
{
    match disk.read(path) {
        Ok(bytes) => Ok(bytes),
        Err(FileFault::Device) => Err(Failure::Unread(path)),
        Err(FileFault::Memory) => Err(Failure::Memory),
    }
}

/// Writes a file of these bytes.
pub(crate) fn write<'a, D: Disk>(
    disk: &mut D,
    path: &'a str,
    bytes: &[u8],
) -> Result<(), Failure<'a>>
    ensures holds { OnOk result (Holds (D.told disk.new).files path.now bytes.now) }
    ensures spares { OnOk result (Spares (D.told disk.old).files (D.told disk.new).files path.now) }
    ensures clean { OnOk result ((D.told disk.new).faults ≡ (D.told disk.old).faults) }
    ensures fault { IfErr result (IsUnwritten (D.told disk.old) (D.told disk.new) path.entry) }
{
    match disk.write(path, bytes) {
        Ok(()) => Ok(()),
        Err(FileFault::Device) => Err(Failure::Unwritten(path)),
        Err(FileFault::Memory) => Err(Failure::Memory),
    }
}

/// Writes bytes to standard output.
pub(crate) fn put_out<'a, O: Sink>(out: &mut O, bytes: &[u8]) -> Result<(), Failure<'a>>
    ensures all { OnOk result (Sends (O.told out.old) (O.told out.new) bytes.now) }
    ensures fault { IfErr result (λ e. e ≡ Output) }
    ensures some { OnErr result (Breaks (O.told out.old) (O.told out.new) bytes.now) }
{
    match write_exe(bytes, out) {
        Ok(()) => Ok(()),
        Err(_) => Err(Failure::Output),
    }
}

/// Writes lines to a stream.
pub(crate) fn put_lines<'a, O: Sink>(out: &mut O, lines: &[String]) -> Result<(), Failure<'a>>
    ensures all { OnOk result (Sends (O.told out.old) (O.told out.new) (concat (map string_bytes lines.now))) }
    ensures fault { IfErr result (λ e. e ≡ Output) }
    ensures some { OnErr result (Breaks (O.told out.old) (O.told out.new) (concat (map string_bytes lines.now))) }
{
    for line in lines {
        put_out(out, line.as_bytes())?;
    }
    Ok(())
}

/// The bytes of all files, in order.
pub(crate) fn read_all<'a, D: Disk>(
    alloc: Global,
    disk: &mut D,
    paths: &[&'a str],
) -> Result<Vec<Vec<u8>>, Failure<'a>>
    ensures held { IfOk result (λ v. AllHold (D.told disk.old).files (map (λ p. p.now) paths.now) (map (λ t. t.items) v.items)) }
    ensures same { OnOk result (D.told disk.new ≡ D.told disk.old) }
    ensures fails { IfErr result (λ e. MissesFile (D.told disk.old) (D.told disk.new) (map (λ p. p.now) paths.now) e ⊎ ((e ≡ Memory) × (D.told disk.new ≡ D.told disk.old))) }
{
    let mut texts = Vec::new(alloc);
    for path in paths {
        let bytes = read(disk, *path)?;
        texts.push(bytes)?;
    }
    Ok(texts)
}

/// The same texts, borrowed.
pub(crate) fn slices(alloc: Global, texts: &[Vec<u8>]) -> Result<Vec<&[u8]>, AllocError>
    ensures { IfOk result (λ v. map (λ t. t.now) v.items ≡ map (λ t. t.items) texts.now) }
{
    let mut slices = Vec::new(alloc);
    for text in texts {
        slices.push(text.as_slice())?;
    }
    Ok(slices)
}
