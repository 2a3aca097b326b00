//! `qbec symbols`.
ghost use Rattle.std.specs.Prelude.{◌≡◌, map, IfOk, OnOk, IfErr};
ghost use Rattle.commands.specs.Commands.{AreListed, ListingFails, IsPut, IsUnput, SymbolsAreShown, SymbolsFail};

use crate::explanation::Explanation;
use crate::failure::Failure;
use crate::files::{put_out, read_all, slices, write};
use qbec::symbols::listing::listed_file;
use regalloc::strategy::Strategy;
use shell::{Disk, Sink};
use std::alloc::Global;

/// Writes the file `target` of these bytes, where there is such a file.
fn put_file<'a, D: Disk>(
    disk: &mut D,
    target: Option<&'a str>,
    bytes: &[u8],
) -> Result<(), Failure<'a>>
    ensures put { OnOk result (IsPut target.entry bytes.now (D.told disk.old) (D.told disk.new)) }
    ensures fault { IfErr result (IsUnput target.entry (D.told disk.old) (D.told disk.new)) }
{
    match target {
        Some(path) => write(disk, path, bytes),
        None => Ok(()),
    }
}

/// Compiles texts, writes what that makes to `target`, where there is such a file, and puts out where the names stand in it.
#[tactic(auto, unfolding(crate::specs::Commands::ListingFails))]
fn list<'a, D: Disk, O: Sink>(
    alloc: Global,
    allocator: &mut dyn Strategy,
    disk: &mut D,
    out: &mut O,
    target: Option<&'a str>,
    texts: &[&[u8]],
) -> Result<(), Failure<'a>>
    ensures listed { OnOk result (AreListed (map (λ t. t.now) texts.now) target.entry (D.told disk.old) (D.told disk.new) (O.told out.old) (O.told out.new)) }
    ensures fails { IfErr result (ListingFails (map (λ t. t.now) texts.now) target.entry (D.told disk.old) (D.told disk.new) (O.told out.old) (O.told out.new)) }
{
    let listed = listed_file(alloc, texts, allocator)?;
    put_file(disk, target, listed.file.as_slice())?;
    put_out(out, listed.listing.as_slice())
}

/// Puts out where the names of the files stand, as texts, in an executable of them, which is written to `target`, where there is such a file.
#[tactic(auto, unfolding(crate::specs::Commands::SymbolsFail))]
pub(crate) fn list_symbols<'a, D: Disk, O: Sink>(
    alloc: Global,
    allocator: &mut dyn Strategy,
    disk: &mut D,
    out: &mut O,
    target: Option<&'a str>,
    paths: &[&'a str],
    explanation: &mut Explanation,
) -> Result<u8, Failure<'a>>
    ensures shows { OnOk result (SymbolsAreShown target.entry (map (λ p. p.now) paths.now) (D.told disk.old) (D.told disk.new) (O.told out.old) (O.told out.new)) }
    ensures status { IfOk result (λ status. status ≡ 0) }
    ensures fails { IfErr result (SymbolsFail target.entry (map (λ p. p.now) paths.now) (D.told disk.old) (D.told disk.new) (O.told out.old) (O.told out.new)) }
{
    let texts = read_all(alloc, disk, paths)?;
    let slices = slices(alloc, texts.as_slice())?;
    explanation.add_texts(paths, slices.as_slice());
    list(alloc, allocator, disk, out, target, slices.as_slice())?;
    Ok(0)
}
