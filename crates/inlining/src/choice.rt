//! Functions whose calls are worth doing in place, by how many instructions they have, and in how many places they are called by name: a guess that nothing proved rests on.

use il_ast::{Block, Callee, Func, Inst, Target, Val};
use obj_link::Linked;
use std::alloc::{AllocError, Global};

/// A function that is called in several places, and is done in place in them, has at most so many instructions.
const SMALL: usize = 30;

/// One that is called in one place has at most so many.
const LARGE: usize = 400;

/// So many instructions may come to any program by calls in place, and besides half as many as it has, for functions called in one place and for the others.
const FREE: usize = 500;

/// The number of the function that the instruction calls by name, if it calls one.
fn callee_of(targets: &[Target], inst: &Inst) -> Option<usize> {
    if let Inst::Call {
        callee: Val::Global(name),
        ..
    } = inst
        && let Some(Target::Code(Callee::Defined(number))) = targets.get(name.number())
    {
        Some(*number)
    } else {
        None
    }
}

/// A function of a program, which may be worth doing in place where it is called.
#[derive(Clone, Copy)]
struct Candidate {
    /// how many instructions it has
    size: usize,
    /// in how many places it is called by name, those in itself among them
    calls: u32,
}

const UNMEASURED: Candidate = Candidate { size: 0, calls: 0 };

/// How many instructions the function has.
fn size_of(function: &Func) -> usize {
    let blocks = function.blocks.as_slice().iter();
    blocks.fold(
        0usize,
        |size: usize, block| size.saturating_add(block.insts.len()),
    )
}

/// Counts what the instructions of the block call by name.
fn count_in_block(candidates: &mut [Candidate], targets: &[Target], block: &Block) {
    for inst in block.insts.as_slice() {
        if let Some(number) = callee_of(targets, &inst.item)
            && let Some(candidate) = candidates.get_mut(number)
        {
            candidate.calls = candidate.calls.saturating_add(1);
        }
    }
}

fn count_in_function(candidates: &mut [Candidate], targets: &[Target], function: &Func) {
    for block in function.blocks.as_slice() {
        count_in_block(candidates, targets, block);
    }
}

/// Measures all functions, and counts the calls by name in them.
fn measure(candidates: &mut [Candidate], linked: &Linked<'_>) {
    for (number, function) in linked.functions.as_slice().iter().enumerate() {
        if let Some(candidate) = candidates.get_mut(number) {
            candidate.size = size_of(function.item);
        }
        if let Some(targets) = linked.targets.as_slice().get(function.text) {
            count_in_function(candidates, targets.as_slice(), function.item);
        }
    }
}

/// Adds to the copies of each size how many instructions come by all calls in place of the candidates that are called in one place, or of the others.
fn add_copies(copies: &mut [usize], candidates: &[Candidate], are_once: bool) {
    for candidate in candidates {
        if (candidate.calls == 1) == are_once
            && let Some(sum) = copies.get_mut(candidate.size)
        {
            let copied = candidate.size.saturating_mul(candidate.calls as usize);
            *sum = sum.saturating_add(copied);
        }
    }
}

/// The first size at which too many instructions come by functions up to it.
fn limit(copies: &[usize], most: usize) -> usize {
    let mut left = most;
    for (size, sum) in copies.iter().enumerate() {
        match left.checked_sub(*sum) {
            Some(rest) => left = rest,
            None => return size,
        }
    }
    copies.len()
}

/// The same of the candidates that are called in one place, or of the others, which are below `end`.
fn limit_below(
    alloc: Global,
    end: usize,
    most: usize,
    candidates: &[Candidate],
    are_once: bool,
) -> Result<usize, AllocError> {
    let mut copies = vec![in alloc; 0usize; end]?;
    add_copies(copies.as_mut_slice(), candidates, are_once);
    Ok(limit(copies.as_slice(), most))
}

/// How many instructions may come to a program by calls in place.
fn most_copies(candidates: &[Candidate]) -> usize {
    let sizes = candidates.iter().map(|candidate| candidate.size);
    let sum = sizes.fold(0usize, |sum: usize, size| sum.saturating_add(size));
    (sum / 2).saturating_add(FREE)
}

/// For each candidate, whether it is worth doing in place: it has fewer instructions than a limit for those that are called in one place, or one for the others.
fn worthy_of(alloc: Global, candidates: &[Candidate]) -> Result<Vec<bool>, AllocError> {
    let most = most_copies(candidates);
    let once = limit_below(alloc, LARGE + 1, most, candidates, true)?;
    let often = limit_below(alloc, SMALL + 1, most, candidates, false)?;
    let worthy = candidates.iter().map(|candidate| match candidate.calls {
        0 => false,
        1 => candidate.size < once,
        _ => candidate.size < often,
    });
    worthy.collect(alloc)
}

/// For each function of a program, whether it is called by name, in so many places that not too many instructions come by that in all. One that calls itself is done in place in itself, too: so a recursion enters fewer calls.
///
/// # Errors
///
/// Only where memory was refused.
pub fn worthy_functions(alloc: Global, linked: &Linked<'_>) -> Result<Vec<bool>, AllocError> {
    let mut candidates = vec![in alloc; UNMEASURED; linked.functions.len()]?;
    measure(candidates.as_mut_slice(), linked);
    worthy_of(alloc, candidates.as_slice())
}
