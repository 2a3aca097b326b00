//! `qbec trace`.
ghost use Rattle.std.specs.Prelude.{◌≡◌, map, IfOk, OnOk, OnErr, IfErr};
ghost use Rattle.commands.specs.Parts.{IsTold, IsTraced, TraceFails};
ghost use Rattle.commands.specs.Pieces.{end_status};

use crate::explanation::Explanation;
use crate::failure::{Failure, end_status};
use crate::files::{read_all, slices};
use crate::run::as_bytes;
use crate::tell::{tell, tell_bytes};
use crate::traced::trace_texts;
use il_ast::End;
use shell::{Disk, Sink};
use std::alloc::Global;

/// Tells where and how a program ended that didn't exit, and answers the status.
#[tactic(auto, unfolding(crate::specs::Parts::IsTold))]
fn tell_end<E: Sink>(end: End, story: &[u8], err: &mut E) -> u8
    ensures { IsTold (end_status end) (E.told err.old) (E.told err.new) result }
{
    match end_status(end) {
        Ok(status) => status,
        Err(failure) => {
            tell_bytes(story, err);
            tell(&failure, err);
            failure.status()
        }
    }
}

/// Interprets texts, puts out what they put out while they run, tells where and why they ended if they didn't exit, and answers the status.
#[tactic(auto, unfolding(crate::specs::Parts::IsTraced, crate::specs::Parts::TraceFails, crate::specs::Pieces::TextsFail))]
pub(crate) fn trace<'a, D: Disk, O: Sink, E: Sink>(
    alloc: Global,
    disk: &mut D,
    out: &mut O,
    err: &mut E,
    turns: u64,
    last: u64,
    paths: &[&'a str],
    words: &[&str],
    explanation: &mut Explanation,
) -> Result<u8, Failure<'a>>
    ensures traced { IfOk result (IsTraced (D.told disk.old) (map (λ p. p.now) paths.now) (map (λ w. w.now) words.now) turns (O.told out.old) (O.told out.new) (E.told err.old) (E.told err.new)) }
    ensures same { OnOk result (D.told disk.new ≡ D.told disk.old) }
    ensures silent { OnErr result (E.told err.new ≡ E.told err.old) }
    ensures fails { IfErr result (TraceFails (D.told disk.old) (D.told disk.new) (map (λ p. p.now) paths.now) (map (λ w. w.now) words.now) turns (O.told out.old) (O.told out.new)) }
{
    let texts = read_all(alloc, disk, paths)?;
    let slices = slices(alloc, texts.as_slice())?;
    explanation.add_texts(paths, slices.as_slice());
    let words = as_bytes(alloc, words)?;
    let (end, story) = trace_texts(
        alloc,
        paths,
        slices.as_slice(),
        words.as_slice(),
        turns,
        last,
        out,
    )?;
    Ok(tell_end(end, story.as_bytes(), err))
}
