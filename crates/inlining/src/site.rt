//! Calls that can be done in place.
ghost use Rattle.std.specs.Prelude.{◌≡◌, ℕ, ◌+◌, ◌<◌, true, false, map, length, take, drop, IsTrue, IfOk, IfSome, option_map};
ghost use Rattle.std.specs.List.{list_all, list_any};
ghost use Rattle.il_ast.specs.Prelude.{same_classes, result_fits};
ghost use Rattle.vcode.specs.declared.place.Argument.{Argument as ArgumentOf};
ghost use Rattle.vcode.specs.declared.place.Destination.{Destination as DestinationOf};
ghost use Rattle.vcode.specs.Prelude.{classes_in, is_paid, is_alloc};
ghost use Rattle.inlining.specs.InPlace.{site_of};
ghost use Rattle.inlining.specs.Growth.{Answers};

use crate::blocks::CallSite;
use crate::candidate::is_candidate;
use il_ast::Class;
use vcode::cost::is_paid;
use vcode::{Argument, Block, Destination, Line, Operand, VFunc};

/// Whether arguments have the classes of parameters.
fn args_fit(args: &[Argument<u32>], params: &[Destination<u32>]) -> bool
    ensures { result ≡ same_classes (map (λ (a : ArgumentOf ℕ). a.class) args.now) (classes_in params.now) }
{
    match args {
        [] => params.is_empty(),
        [arg, args @ ..] => match params {
            [] => false,
            [param, params @ ..] => arg.class == param.class && args_fit(args, params),
        },
    }
}

/// Whether a result can go to a destination: it may be ignored, and one that is wanted has its class.
fn result_fits(to: &Option<Destination<u32>>, class: Option<Class>) -> bool
    ensures { result ≡ result_fits (option_map (λ (d : DestinationOf ℕ). d.class) to.now) class }
{
    match *to {
        None => true,
        Some(to) => match class {
            None => false,
            Some(class) => to.class == class,
        },
    }
}

/// Whether the candidate takes what the call passes, and gives what it wants.
pub(crate) fn answers(candidate: &VFunc, site: &CallSite<'_>) -> bool
    ensures { result ≡ true → Answers candidate.now (site_of site.now) }
{
    candidate.code.blocks.len() > 0
        && args_fit(site.args, candidate.code.params.as_slice())
        && result_fits(&site.to, candidate.code.result)
        && is_candidate(candidate)
}

/// Whether ticks pay for the lines and the jump of each block.
pub(crate) fn are_paid(blocks: &[Block<u32>]) -> bool
    ensures { result ≡ list_all is_paid blocks.now }
{
    blocks.iter().all(|block| is_paid(block))
}

fn is_alloc(line: &Line<u32>) -> bool
    ensures { result ≡ is_alloc line.now }
{
    match line {
        Line::Alloc { .. } => true,
        _ => false,
    }
}

/// How many lines there are up to the last that makes a block of memory.
pub(crate) fn up_to_allocs(lines: &[Line<u32>]) -> usize
    ensures { list_any is_alloc (drop result lines.now) ≡ false }
{
    let mut up_to = 0;
    for (number, line) in lines.iter().enumerate() {
        if is_alloc(line) {
            up_to = number + 1;
        }
    }
    up_to
}

/// Whether the line is a call of one of the candidates.
pub(crate) fn is_call_of(line: &Line<u32>, candidates: &[Option<VFunc>]) -> bool {
    match line {
        Line::Call {
            callee: Operand::Name(name),
            ..
        } => matches!(candidates.get(name.number()), Some(Some(_))),
        _ => false,
    }
}
