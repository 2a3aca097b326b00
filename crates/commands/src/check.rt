//! `qbec check`.
ghost use Rattle.std.specs.Prelude.{◌≡◌, map, IfOk, IfErr, OnOk, OnErr, string_bytes};
ghost use Rattle.std.specs.List.{concat};
ghost use Rattle.shell.specs.Sink.{Tells};
ghost use Rattle.commands.specs.Parts.{IsChecked, CheckFails, ShowsVerdict};

use crate::failure::Failure;
use crate::files::{put_lines, read_all, slices};
use crate::verdict::judge;
use crate::verdict_lines::verdict_lines;
use shell::{Disk, Sink};
use std::alloc::{AllocError, Global};

/// Writes these lines, as far as standard error takes them.
pub(crate) fn tell_lines<E: Sink>(lines: &[String], err: &mut E)
    ensures { Tells (E.told err.old) (E.told err.new) (concat (map string_bytes lines.now)) }
{
    let _ = put_lines(err, lines);
}

/// Says what is found of texts, and answers the status.
fn show_verdict<E: Sink>(
    alloc: Global,
    err: &mut E,
    paths: &[&str],
    texts: &[&[u8]],
) -> Result<u8, AllocError>
    ensures shows { IfOk result (ShowsVerdict (map (λ p. p.now) paths.now) (map (λ t. t.now) texts.now) (E.told err.old) (E.told err.new)) }
    ensures silent { OnErr result (E.told err.new ≡ E.told err.old) }
{
    let verdict = judge(alloc, paths, texts)?;
    let lines = verdict_lines(alloc, paths, &verdict)?;
    tell_lines(lines.as_slice(), err);
    Ok(verdict.status())
}

/// Says what is wrong with files as texts, and answers the status.
#[tactic(auto, unfolding(crate::specs::Parts::CheckFails))]
pub(crate) fn check<'a, D: Disk, E: Sink>(
    alloc: Global,
    disk: &mut D,
    err: &mut E,
    paths: &[&'a str],
) -> Result<u8, Failure<'a>>
    ensures checked { IfOk result (IsChecked (D.told disk.old) (map (λ p. p.now) paths.now) (E.told err.old) (E.told err.new)) }
    ensures same { OnOk result (D.told disk.new ≡ D.told disk.old) }
    ensures silent { OnErr result (E.told err.new ≡ E.told err.old) }
    ensures fails { IfErr result (CheckFails (D.told disk.old) (D.told disk.new) (map (λ p. p.now) paths.now)) }
{
    let texts = read_all(alloc, disk, paths)?;
    let slices = slices(alloc, texts.as_slice())?;
    let status = show_verdict(alloc, err, paths, slices.as_slice())?;
    Ok(status)
}
