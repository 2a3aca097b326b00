//! Runs of files and of texts, whose output goes out while they run.
ghost use Rattle.std.specs.Prelude.{◌≡◌, ◌↔◌, ℕ, List, map, true, false, Err, IfOk, OnOk, IfErr};
ghost use Rattle.il_ast.specs.Prelude.{meaning};
ghost use Rattle.obj_link.specs.Prelude.{are_arguments, program};
ghost use Rattle.rv_machine.specs.declared.start.StartError.TheVariants.{Arguments};
ghost use Rattle.rv_machine.specs.Entries.{view};
ghost use Rattle.rv_machine.specs.Steps.{start_state};
ghost use Rattle.qbec.specs.Refusals.{AreTexts};
ghost use Rattle.commands.specs.Pieces.{FileFails, FileSends, LinkedFails, Sent, TextsFail, TextsSend};

use crate::failure::Failure;
use crate::pieces::{run_machine, run_turns};
use elf_file::{Loaded, read_image};
use il_ast::End;
use il_interp::pieces::begin_to_run;
use il_types::Checked;
use obj_link::Linked;
use obj_link::linking::resolve::resolve;
use qbec::error::link_refusal;
use qbec::texts::checked_texts;
use rv_machine::{Machine, PageRam, Ram, StartError, Stop};
use shell::Sink;
use std::alloc::Global;

/// A machine at the start of a loaded file with these argument words.
fn start(alloc: Global, file: &Loaded, words: &[&[u8]]) -> Result<Machine<PageRam>, StartError>
    ensures starts { IfOk result (λ m. view ⟦<PageRam as Ram>⟧ m ≡ start_state file.now (map (λ w. w.now) words.now)) }
    ensures fit { OnOk result (are_arguments (map (λ w. w.now) words.now) ≡ true) }
    ensures refused { (result ≡ Err Arguments) ↔ (are_arguments (map (λ w. w.now) words.now) ≡ false) }
{
    Machine::<PageRam>::start(alloc, file, words)
}

/// Runs an executable file with these argument words for at most `limit` instructions, puts out what it puts out while it runs, and answers why it stopped.
///
/// # Errors
///
/// `Failure::Refused` for bytes that are no executable file (L1 to L6), and then for words that pass a limit (E8); `Failure::Memory` where memory for the
/// machine was refused; `Failure::Output` where the sink fails.
pub fn run_file<'a, O: Sink>(
    alloc: Global,
    bytes: &[u8],
    words: &[&[u8]],
    limit: u64,
    out: &mut O,
) -> Result<Stop, Failure<'a>>
    ensures runs { IfOk result (FileSends bytes.now (map (λ w. w.now) words.now) limit (O.told out.old) (O.told out.new)) }
    ensures fails { IfErr result (FileFails bytes.now (map (λ w. w.now) words.now) limit (O.told out.old) (O.told out.new)) }
{
    let file = match read_image(alloc, bytes) {
        Ok(file) => file,
        Err(error) => return Err(Failure::from(error)),
    };
    let mut machine = match start(alloc, &file, words) {
        Ok(machine) => machine,
        Err(error) => return Err(Failure::from(error)),
    };
    let code = machine.decoded_code(alloc);
    run_machine(&mut machine, &code, limit, out)
}

/// Interprets a linked program with these argument words for at most `turns` turns, puts out what it puts out while it runs, and answers how it ended.
fn interpret_linked<'a, O: Sink>(
    alloc: Global,
    linked: &Linked<'_>,
    words: &[&[u8]],
    turns: u64,
    out: &mut O,
) -> Result<End, Failure<'a>>
    ensures sent { IfOk result (Sent (meaning (program linked.now) (map (λ w. w.now) words.now)) turns (O.told out.old) (O.told out.new)) }
    ensures fit { OnOk result (are_arguments (map (λ w. w.now) words.now) ≡ true) }
    ensures fails { IfErr result (LinkedFails (meaning (program linked.now) (map (λ w. w.now) words.now)) (map (λ w. w.now) words.now) turns (O.told out.old) (O.told out.new)) }
{
    match begin_to_run(alloc, linked, words) {
        Ok(Ok(running)) => {
            let mut running = running;
            run_turns(alloc, &mut running, turns, out)
        }
        Ok(Err(end)) => Ok(end),
        Err(error) => Err(Failure::from(error)),
    }
}

/// Interprets checked texts as [`interpret_texts`] does.
fn interpret_checked<'a, O: Sink>(
    alloc: Global,
    checked: &[Checked],
    words: &[&[u8]],
    turns: u64,
    out: &mut O,
) -> Result<End, Failure<'a>>
    ensures means { (texts : List (List ℕ)) → AreTexts texts checked.now → IfOk result (TextsSend texts (map (λ w. w.now) words.now) turns (O.told out.old) (O.told out.new)) }
    ensures fails { (texts : List (List ℕ)) → AreTexts texts checked.now → IfErr result (TextsFail texts (map (λ w. w.now) words.now) turns (O.told out.old) (O.told out.new)) }
{
    match resolve(alloc, checked) {
        Ok(linked) => interpret_linked(alloc, &linked, words, turns, out),
        Err(error) => Err(Failure::from(link_refusal(alloc, error))),
    }
}

/// Interprets texts with these argument words for at most `turns` turns, puts out what they put out while they run, and answers how they ended.
///
/// # Errors
///
/// `Failure::Refused` for texts that are no program (E1 to E6), then for words that pass a limit (E8), and where memory was refused (E7), also in the middle of the
/// run; `Failure::Output` where the sink fails.
pub fn interpret_texts<'a, O: Sink>(
    alloc: Global,
    texts: &[&[u8]],
    words: &[&[u8]],
    turns: u64,
    out: &mut O,
) -> Result<End, Failure<'a>>
    ensures means { IfOk result (TextsSend (map (λ t. t.now) texts.now) (map (λ w. w.now) words.now) turns (O.told out.old) (O.told out.new)) }
    ensures fails { IfErr result (TextsFail (map (λ t. t.now) texts.now) (map (λ w. w.now) words.now) turns (O.told out.old) (O.told out.new)) }
{
    match checked_texts(alloc, texts) {
        Ok(checked) => interpret_checked(alloc, checked.as_slice(), words, turns, out),
        Err(error) => Err(Failure::from(error)),
    }
}
