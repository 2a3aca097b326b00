//! What is likely a mistake in a program.
use crate::call::{add_wrong_calls, wanted};
use crate::comparison::add_wrong_comparisons;
use crate::name::{label, name_in, temp};
use crate::note::{Gathered, Note, make_note};
use crate::paths::Paths;
use crate::place::{Step, steps};
use il_ast::{Func, InText, Jump};
use obj_link::Linked;
use std::alloc::{AllocError, Global};
use text_maker::{TextMaker, say};

/// What is likely a mistake in a program, function by function: blocks that do something and that nothing leads to, temporaries that may be read before they are
/// assigned, returns without a value that is wanted, comparisons of functions with numbers, and calls by name of functions of other classes.
pub fn warnings(alloc: Global, linked: &Linked<'_>) -> Result<Vec<Note>, AllocError> {
    let mut notes = Gathered::new(alloc);
    let wanted = wanted(alloc, linked)?;
    for (number, function) in linked.functions.as_slice().iter().enumerate() {
        let is_wanted = wanted.as_slice().get(number).copied().unwrap_or(false);
        add_of_paths(&mut notes, linked, function, is_wanted)?;
        add_wrong_comparisons(&mut notes, linked, function)?;
        add_wrong_calls(&mut notes, linked, function);
    }
    notes.finish()
}

/// What the paths through a function show of it, whose result is wanted or isn't.
fn add_of_paths(
    notes: &mut Gathered<Note>,
    linked: &Linked<'_>,
    function: &InText<&Func>,
    is_wanted: bool,
) -> Result<(), AllocError> {
    let steps = steps(notes.alloc, function.item)?;
    let mut paths = Paths::of(notes.alloc, function.item)?;
    paths.settle(steps.as_slice())?;
    add_unreached(notes, function, &paths);
    if is_wanted && function.item.result.is_some() {
        add_bare_returns(notes, linked, function, &paths);
    }
    add_reads(notes, function, &mut paths, steps.as_slice());
    Ok(())
}

/// The blocks that do more than jump and that nothing leads to, in one line at the first of them. A front end may open one that only jumps behind each `ret` and each `jmp`.
fn add_unreached(notes: &mut Gathered<Note>, function: &InText<&Func>, paths: &Paths<'_>) {
    let blocks = function.item.blocks.as_slice().iter().enumerate();
    let mut unreached = blocks.filter(|(place, block)| {
        (block.phis.len() > 0 || block.insts.len() > 0) && !paths.is_reached(*place)
    });
    if let Some((_, block)) = unreached.next() {
        let mut words = TextMaker::new(notes.alloc);
        say!(words; "nothing leads to {}", label(function.item, block.label));
        let others = unreached.count();
        if others > 0 {
            say!(words; ", nor to {others} more of the function's blocks");
        }
        notes.add(make_note(function.text, block.line, words));
    }
}

/// The returns without a value of a function whose result is wanted, in blocks that something leads to.
fn add_bare_returns(
    notes: &mut Gathered<Note>,
    linked: &Linked<'_>,
    function: &InText<&Func>,
    paths: &Paths<'_>,
) {
    for (place, block) in function.item.blocks.as_slice().iter().enumerate() {
        if paths.is_reached(place)
            && let Some(jump) = &block.jump
            && let Jump::Return(None) = jump.item
        {
            let mut words = TextMaker::new(notes.alloc);
            let name = name_in(linked, function.text, function.item.name);
            say!(words; "this ret gives no value, and the result of {name} is wanted");
            notes.add(make_note(function.text, jump.line, words));
        }
    }
}

/// The temporaries that some path reads before it assigns them, each where it is first read so.
fn add_reads(
    notes: &mut Gathered<Note>,
    function: &InText<&Func>,
    paths: &mut Paths<'_>,
    steps: &[Step],
) {
    for step in steps {
        if let Some(read) = paths.first_read(step) {
            let mut words = TextMaker::new(notes.alloc);
            let name = temp(function.item, read);
            say!(words; "{name} may be read before it is assigned");
            notes.add(make_note(function.text, step.line, words));
        }
    }
}
