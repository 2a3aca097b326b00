//! `qbec run` and `qbec interp`.
ghost use Rattle.std.specs.Prelude.{◌≡◌, map, IfOk, OnOk, IfErr};
ghost use Rattle.commands.specs.Parts.{RunsTo, MeansTo, RunFails, InterpretFails};

use crate::explanation::Explanation;
use crate::failure::{Failure, end_status, stop_status};
use crate::files::read;
use crate::runs::{interpret_texts, run_file};
use shell::{Disk, Sink};
use std::alloc::{AllocError, Global};

pub(crate) fn as_bytes<'a>(alloc: Global, words: &[&'a str]) -> Result<Vec<&'a [u8]>, AllocError>
    ensures { IfOk result (λ v. map (λ w. w.now) v.items ≡ map (λ w. w.now) words.now) }
{
    let mut list = Vec::new(alloc);
    for word in words {
        list.push(word.as_bytes())?;
    }
    Ok(list)
}

/// Runs an executable file, puts out what it puts out while it runs, and answers its exit status.
#[tactic(auto, unfolding(crate::specs::Parts::RunsTo, crate::specs::Parts::RunFails, crate::specs::Pieces::FileFails))]
pub(crate) fn run<'a, D: Disk, O: Sink>(
    alloc: Global,
    disk: &mut D,
    out: &mut O,
    limit: u64,
    path: &'a str,
    words: &[&str],
    explanation: &mut Explanation,
) -> Result<u8, Failure<'a>>
    ensures runs { IfOk result (RunsTo (D.told disk.old) path.now (map (λ w. w.now) words.now) limit (O.told out.old) (O.told out.new)) }
    ensures same { OnOk result (D.told disk.new ≡ D.told disk.old) }
    ensures fails { IfErr result (RunFails (D.told disk.old) (D.told disk.new) path.entry (map (λ w. w.now) words.now) limit (O.told out.old) (O.told out.new)) }
{
    let bytes = read(disk, path)?;
    explanation.add_file(path, bytes.as_slice());
    let words = as_bytes(alloc, words)?;
    let stop = run_file(alloc, bytes.as_slice(), words.as_slice(), limit, out)?;
    stop_status(stop)
}

/// Interprets a text, puts out what it puts out while it runs, and answers its exit status.
#[tactic(auto, unfolding(crate::specs::Parts::MeansTo, crate::specs::Parts::InterpretFails, crate::specs::Pieces::TextsFail))]
pub(crate) fn interpret<'a, D: Disk, O: Sink>(
    alloc: Global,
    disk: &mut D,
    out: &mut O,
    turns: u64,
    path: &'a str,
    words: &[&str],
    explanation: &mut Explanation,
) -> Result<u8, Failure<'a>>
    ensures means { IfOk result (MeansTo (D.told disk.old) path.now (map (λ w. w.now) words.now) turns (O.told out.old) (O.told out.new)) }
    ensures same { OnOk result (D.told disk.new ≡ D.told disk.old) }
    ensures fails { IfErr result (InterpretFails (D.told disk.old) (D.told disk.new) path.entry (map (λ w. w.now) words.now) turns (O.told out.old) (O.told out.new)) }
{
    let text = read(disk, path)?;
    explanation.add_texts(&[path], &[text.as_slice()]);
    let words = as_bytes(alloc, words)?;
    let end = interpret_texts(alloc, &[text.as_slice()], words.as_slice(), turns, out)?;
    end_status(end)
}
