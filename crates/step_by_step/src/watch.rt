//! A function on its way through the compiler: what each step makes of what the step before it made.
use crate::chosen::chosen;
use crate::passes::changed_by;
use crate::phis::Part;
use crate::{allocation, frames, front_end, phis, schedules};
use qbec::passes::PASSES;
use qbec::{Pass, Progress};
use std::alloc::Global;
use text_maker::{TextMaker, say};

/// Adds what a step made: a line with its name, and the text.
fn add_stage(out: &mut TextMaker, name: &str, made: &str) {
    let end = if made.ends_with('\n') { "" } else { "\n" };
    say!(out; "== {name}\n{made}{end}");
}

/// Adds what a pass chose to do and made of virtual code, or that it left all as it was. What it made is answered, if it made something.
fn add_pass(
    out: &mut TextMaker,
    alloc: Global,
    pass: Pass,
    before: &str,
) -> Option<Option<String>> {
    let made = changed_by(alloc, pass, before)?;
    match &made {
        Some(made) if made.as_str() != before => {
            let chosen = chosen(alloc, pass, before)?;
            say!(out; "== {}\n{chosen}{made}", pass.name());
        }
        _ => add_stage(out, pass.name(), "as before"),
    }
    Some(made)
}

/// Adds what each pass makes of virtual code. What the last one made is answered.
fn add_passes(out: &mut TextMaker, alloc: Global, selected: String) -> Option<String> {
    let mut text = selected;
    let mut progress = Progress::new();
    for (line, pass) in PASSES.iter().enumerate() {
        if !progress.is_due(line, *pass) {
            add_stage(out, pass.name(), "as before");
        } else if let Some(made) = add_pass(out, alloc, *pass, text.as_str())? {
            progress.note(line, *pass);
            text = made;
        }
    }
    Some(text)
}

/// Adds location code, machine code with labels, and words.
fn add_back_end(out: &mut TextMaker, alloc: Global, ordered: &str) -> Option<()> {
    let located = allocation::allocated(alloc, ordered)?;
    add_stage(out, "alloc_check", located.as_str());
    let scheduled = schedules::scheduled(alloc, located.as_str())?;
    add_stage(out, "scheduling", scheduled.as_str());
    let labelled = frames::code(alloc, scheduled.as_str())?;
    add_stage(out, "abi_frames", labelled.as_str());
    let words = frames::words(alloc, scheduled.as_str())?;
    add_stage(out, "asm_layout", words.as_str());
    Some(())
}

/// The first function of a text after each step: its tree, the tree without locals in memory, virtual code as it is selected and after each pass, location code before and behind scheduling, machine
/// code with labels, and words. None where the text has another definition than one function, breaks a rule, or memory is refused.
pub fn watched(alloc: Global, source: &str) -> Option<String> {
    let mut out = TextMaker::new(alloc);
    let tree = front_end::tree(alloc, source)?;
    add_stage(&mut out, "il_reader", tree.as_str());
    let promoted = front_end::promoted(alloc, source)?;
    add_stage(&mut out, "promote", promoted.as_str());
    let selected = phis::shown_of(alloc, source, Part::PromotedCode)?;
    add_stage(&mut out, "select", selected.as_str());
    let ordered = add_passes(&mut out, alloc, selected)?;
    add_back_end(&mut out, alloc, ordered.as_str())?;
    out.finish().ok()
}
