//! Texts that are interpreted, with where and why that ended.
ghost use Rattle.std.specs.Prelude.{◌≡◌, [], map, true, IfOk, OnOk, IfErr};
ghost use Rattle.il_ast.specs.Prelude.{meaning};
ghost use Rattle.il_interp.specs.Machine.{comes_to, held};
ghost use Rattle.obj_link.specs.Prelude.{are_arguments, program};
ghost use Rattle.qbec.specs.Refusals.{AreTexts};
ghost use Rattle.commands.specs.Pieces.{LinkedFails, SendingFails, Sent, TextsFail, TextsSend};

use crate::failure::Failure;
use crate::pieces::run_turns;
use diagnostics::trace::source::Source;
use diagnostics::trace::story::{story, story_of_start};
use il_ast::End;
use il_interp::pieces::{Running, begin_to_run};
use il_types::Checked;
use obj_link::Linked;
use obj_link::linking::resolve::resolve;
use qbec::error::link_refusal;
use qbec::texts::checked_texts;
use shell::Sink;
use std::alloc::Global;

/// Where and why a run ended.
fn told(
    alloc: Global,
    linked: &Linked<'_>,
    paths: &[&str],
    texts: &[&[u8]],
    running: &Running<'_>,
    end: End,
) -> String {
    let source = Source {
        linked,
        paths,
        texts,
    };
    story(alloc, &source, running, end)
}

/// Where a program ended that came to no turn.
fn told_of_start(alloc: Global, linked: &Linked<'_>, paths: &[&str], texts: &[&[u8]]) -> String {
    let source = Source {
        linked,
        paths,
        texts,
    };
    story_of_start(alloc, &source)
}

/// Goes on with a run that has begun, and answers how, where and why it ended.
fn trace_running<'a, O: Sink>(
    alloc: Global,
    running: &mut Running<'_>,
    linked: &Linked<'_>,
    paths: &[&str],
    texts: &[&[u8]],
    turns: u64,
    last: u64,
    out: &mut O,
) -> Result<(End, String), Failure<'a>>
    requires { held running.old ≡ [] }
    ensures sent { IfOk result (λ r. Sent (comes_to running.old) turns (O.told out.old) (O.told out.new) r.0) }
    ensures fails { IfErr result (SendingFails (comes_to running.old) turns (O.told out.old) (O.told out.new)) }
{
    running.watch(alloc, last as usize);
    let end = run_turns(alloc, running, turns, out)?;
    Ok((end, told(alloc, linked, paths, texts, running, end)))
}

/// Interprets a linked program as [`crate::runs::interpret_texts`] does, and answers also where and why it ended.
fn trace_linked<'a, O: Sink>(
    alloc: Global,
    linked: &Linked<'_>,
    paths: &[&str],
    texts: &[&[u8]],
    words: &[&[u8]],
    turns: u64,
    last: u64,
    out: &mut O,
) -> Result<(End, String), Failure<'a>>
    ensures sent { IfOk result (λ r. Sent (meaning (program linked.now) (map (λ w. w.now) words.now)) turns (O.told out.old) (O.told out.new) r.0) }
    ensures fit { OnOk result (are_arguments (map (λ w. w.now) words.now) ≡ true) }
    ensures fails { IfErr result (LinkedFails (meaning (program linked.now) (map (λ w. w.now) words.now)) (map (λ w. w.now) words.now) turns (O.told out.old) (O.told out.new)) }
{
    match begin_to_run(alloc, linked, words) {
        Ok(Ok(mut running)) => {
            trace_running(alloc, &mut running, linked, paths, texts, turns, last, out)
        }
        Ok(Err(end)) => Ok((end, told_of_start(alloc, linked, paths, texts))),
        Err(error) => Err(Failure::from(error)),
    }
}

/// Interprets checked texts as [`trace_texts`] does.
fn trace_checked<'a, O: Sink>(
    alloc: Global,
    checked: &[Checked],
    paths: &[&str],
    texts: &[&[u8]],
    words: &[&[u8]],
    turns: u64,
    last: u64,
    out: &mut O,
) -> Result<(End, String), Failure<'a>>
    ensures means { AreTexts (map (λ t. t.now) texts.now) checked.now → IfOk result (λ r. TextsSend (map (λ t. t.now) texts.now) (map (λ w. w.now) words.now) turns (O.told out.old) (O.told out.new) r.0) }
    ensures fails { AreTexts (map (λ t. t.now) texts.now) checked.now → IfErr result (TextsFail (map (λ t. t.now) texts.now) (map (λ w. w.now) words.now) turns (O.told out.old) (O.told out.new)) }
{
    match resolve(alloc, checked) {
        Ok(linked) => trace_linked(alloc, &linked, paths, texts, words, turns, last, out),
        Err(error) => Err(Failure::from(link_refusal(alloc, error))),
    }
}

/// Interprets texts as [`crate::runs::interpret_texts`] does, and answers also the lines that say where and why they ended, with the last `last` turns: the files of these
/// paths, their lines, and the functions. No contract says more of these lines.
///
/// # Errors
///
/// Those of [`crate::runs::interpret_texts`].
pub fn trace_texts<'a, O: Sink>(
    alloc: Global,
    paths: &[&str],
    texts: &[&[u8]],
    words: &[&[u8]],
    turns: u64,
    last: u64,
    out: &mut O,
) -> Result<(End, String), Failure<'a>>
    ensures means { IfOk result (λ r. TextsSend (map (λ t. t.now) texts.now) (map (λ w. w.now) words.now) turns (O.told out.old) (O.told out.new) r.0) }
    ensures fails { IfErr result (TextsFail (map (λ t. t.now) texts.now) (map (λ w. w.now) words.now) turns (O.told out.old) (O.told out.new)) }
{
    match checked_texts(alloc, texts) {
        Ok(checked) => trace_checked(
            alloc,
            checked.as_slice(),
            paths,
            texts,
            words,
            turns,
            last,
            out,
        ),
        Err(error) => Err(Failure::from(error)),
    }
}
