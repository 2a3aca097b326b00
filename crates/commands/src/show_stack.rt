//! `qbec stack`.
ghost use Rattle.std.specs.Prelude.{◌≡◌, map, IfOk, OnOk, IfErr};
ghost use Rattle.commands.specs.Parts.{AreShown, ShowingLinesFails};
ghost use Rattle.commands.specs.StackLines.{ShowsStack};

use crate::explanation::Explanation;
use crate::failure::Failure;
use crate::files::{put_out, read_all, slices};
use crate::stack_lines::stack_listing;
use shell::{Disk, Sink};
use std::alloc::Global;

/// Puts out how much stack the program takes that the files are, as texts.
#[tactic(auto, unfolding(crate::specs::Parts::ShowingLinesFails))]
pub(crate) fn show_stack<'a, D: Disk, O: Sink>(
    alloc: Global,
    disk: &mut D,
    out: &mut O,
    paths: &[&'a str],
    explanation: &mut Explanation,
) -> Result<u8, Failure<'a>>
    ensures shows { OnOk result (AreShown ShowsStack (D.told disk.old) (map (λ p. p.now) paths.now) (O.told out.old) (O.told out.new)) }
    ensures status { IfOk result (λ status. status ≡ 0) }
    ensures same { OnOk result (D.told disk.new ≡ D.told disk.old) }
    ensures fails { IfErr result (ShowingLinesFails ShowsStack (D.told disk.old) (D.told disk.new) (map (λ p. p.now) paths.now) (O.told out.old) (O.told out.new)) }
{
    let texts = read_all(alloc, disk, paths)?;
    let slices = slices(alloc, texts.as_slice())?;
    explanation.add_texts(paths, slices.as_slice());
    let listing = stack_listing(alloc, slices.as_slice())?;
    put_out(out, listing.as_slice())?;
    Ok(0)
}
