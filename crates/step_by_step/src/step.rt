//! The steps that have tables.
use crate::case::Case;
use crate::phis::Part;
use crate::{
    allocation, back_end, files, frames, front_end, graphs, linking, machine, nests, orders,
    passes, phis, plans, schedules, tokens,
};
use qbec::passes::PASSES;
use std::alloc::{AllocError, Global};

/// The steps in front of the passes, in the order of the compiler.
const FRONT_END: &str = "tokens reading checking linking promoting phis selection inlining";

/// What passes ask of a function and what is done by given plans of theirs, and then the steps behind the passes.
const BEHIND: &str = "loops code_motion_plans constant_sinking_plans constant_hoisting_plans \
    tail_duplication_plans chosen_orders given_orders points liveness spill_all \
    slot_certificates list_certificates linear_scan certificates scheduling scheduling_plans \
    flat_code frames frame_lines frame_entries words writing loading machine";

/// The names of all steps, in order: each of the compiler's passes is one.
pub fn step_names(alloc: Global) -> Result<Vec<&'static str>, AllocError> {
    let mut names: Vec<&'static str> = FRONT_END.split(' ').collect(alloc)?;
    for pass in &PASSES {
        if !names.iter().any(|name| *name == pass.name()) {
            names.push(pass.name())?;
        }
    }
    for name in BEHIND.split(' ') {
        names.push(name)?;
    }
    Ok(names)
}

/// What a step makes of a case, as a text. None where what is given isn't such a text, or memory is refused.
pub fn made(step: &str, alloc: Global, case: Case<'_>) -> Option<String> {
    let (given, with) = (case.given, case.with);
    match step {
        "tokens" => tokens::tokens(alloc, given),
        "reading" => front_end::tree(alloc, given),
        "checking" => front_end::checked(alloc, given),
        "linking" => linking::linked(alloc, given),
        "promoting" => front_end::promoted(alloc, given),
        "phis" => phis::shown_of(alloc, given, Part::Copies),
        "selection" => phis::shown_of(alloc, given, Part::Code),
        "inlining" => passes::with_calls_inlined(alloc, given, with),
        "loops" => nests::nests(alloc, given),
        "code_motion_plans" => plans::with_computations(alloc, given, with),
        "constant_sinking_plans" => plans::with_sets(alloc, given, with),
        "constant_hoisting_plans" => plans::with_held_constant(alloc, given, with),
        "tail_duplication_plans" => plans::with_tails(alloc, given, with),
        "chosen_orders" => orders::chosen(alloc, given),
        "given_orders" => orders::in_given_order(alloc, given, with),
        "points" => graphs::points_of(alloc, given),
        "liveness" => graphs::live_registers(alloc, given, with),
        "spill_all" => allocation::spilled(alloc, given),
        "slot_certificates" => allocation::slotted(alloc, given),
        "list_certificates" => allocation::listed(alloc, given, with),
        "linear_scan" => allocation::scanned(alloc, given),
        "certificates" => allocation::accepted(alloc, given, with),
        "scheduling" => schedules::scheduled(alloc, given),
        "scheduling_plans" => schedules::swapped(alloc, given, with),
        "flat_code" => frames::flattened(alloc, given),
        "frames" => frames::code(alloc, given),
        "frame_lines" => frames::code_of_lines(alloc, given, with),
        "frame_entries" => frames::code_of_entry(alloc, given, with),
        "words" => back_end::instructions(alloc, given),
        "writing" => files::written(alloc, given),
        "loading" => files::loaded(alloc, given),
        "machine" => machine::left(alloc, given),
        pass => {
            let pass = PASSES.iter().find(|other| other.name() == pass)?;
            passes::by_pass(alloc, *pass, given)
        }
    }
}
