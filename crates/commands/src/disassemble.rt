//! `qbec dis`.
ghost use Rattle.std.specs.Prelude.{◌≡◌, IfOk, OnOk, IfErr};
ghost use Rattle.std.specs.List.{concat};
ghost use Rattle.shell.specs.Lines.{dis_lines};
ghost use Rattle.shell.specs.Sink.{Sends};
ghost use Rattle.commands.specs.Parts.{ShowingFails, IsDisassembled, DisassemblyFails};

use crate::explanation::Explanation;
use crate::failure::Failure;
use crate::files::{put_lines, read};
use elf_file::{Loaded, read_image};
use shell::dis_lines::dis_lines;
use shell::{Disk, Sink};
use std::alloc::Global;

/// Puts out the lines of a loaded file.
fn show_lines<'a, O: Sink>(alloc: Global, file: &Loaded, out: &mut O) -> Result<(), Failure<'a>>
    ensures all { OnOk result (Sends (O.told out.old) (O.told out.new) (concat (dis_lines file.now.mappings))) }
    ensures fails { IfErr result (ShowingFails (concat (dis_lines file.now.mappings)) (O.told out.old) (O.told out.new)) }
{
    let lines = dis_lines(alloc, file)?;
    put_lines(out, lines.as_slice())
}

/// Puts out the lines of an executable file.
#[tactic(auto, unfolding(crate::specs::Parts::DisassemblyFails))]
pub(crate) fn disassemble<'a, D: Disk, O: Sink>(
    alloc: Global,
    disk: &mut D,
    out: &mut O,
    path: &'a str,
    explanation: &mut Explanation,
) -> Result<u8, Failure<'a>>
    ensures shows { OnOk result (IsDisassembled (D.told disk.old) path.now (O.told out.old) (O.told out.new)) }
    ensures status { IfOk result (λ status. status ≡ 0) }
    ensures same { OnOk result (D.told disk.new ≡ D.told disk.old) }
    ensures fails { IfErr result (DisassemblyFails (D.told disk.old) (D.told disk.new) path.entry (O.told out.old) (O.told out.new)) }
{
    let bytes = read(disk, path)?;
    explanation.add_file(path, bytes.as_slice());
    let file = read_image(alloc, bytes.as_slice())?;
    show_lines(alloc, &file, out)?;
    Ok(0)
}
