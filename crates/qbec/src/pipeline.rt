//! The words of one function.
ghost use Rattle.std.specs.Prelude.{◌≡◌, true, false, ◌+◌, ◌*◌, ◌≤◌, [], IsTrue, IfOk, IfSome, length};
ghost use Rattle.alloc_check.specs.Prelude.{is_accepted, placed_by, in_slots};
ghost use Rattle.il_ast.specs.Prelude.{need, weight, Keeps, IsCodeOf};
ghost use Rattle.il_ast.specs.declared.function.Func.{Func as PromotedFunc};
ghost use Rattle.phi_copies.specs.Good.{IsGoodFunction};
ghost use Rattle.abi_frames.specs.Performs.{frame_bound};
ghost use Rattle.asm_layout.specs.Forms.{HaveForm};
ghost use Rattle.flat_code.specs.Laws.{FlatKept};
ghost use Rattle.inlining.specs.InPlace.{is_candidate};
ghost use Rattle.vcode.specs.Prelude.{code_weight, virtual_code, location_code};
ghost use Rattle.promote.specs.Uses.{IsPromoted};
ghost use Rattle.qbec.specs.Pipeline.{IsCandidateCode, IsCodeWith, IsLaidOut, StandWith, StandWithin};

use crate::passes::{PASSES, Pass, Progress};
use abi_frames::frame::{frame, frame_bound};
use alloc_check::accept::{Refused, accept};
use alloc_check::spill_all::spill_all;
use asm_layout::call::CallForm;
use asm_layout::layout::layout;
use certificates::{Certificate, Strategy};
use cfg_live::live::live;
use flat_code::function::{FlatFunc, flat};
use il_ast::Func;
use il_types::cost::{capped_need, weight};
use inlining::calls::inline_calls;
use inlining::candidate::is_candidate;
use phi_copies::lower::lower;
use promote::made::has_alloc;
use promote::promote::promote;
use rv_isa::MachineCode;
use scheduling::schedule::schedule;
use select::select::select;
use std::alloc::{AllocError, Global};
use vcode::{LFunc, VFunc};

/// By this certificate where it is right, else with every register in a slot of its own.
fn certified(
    alloc: Global,
    function: &VFunc,
    certificate: &Certificate,
) -> Result<LFunc, AllocError>
    ensures kept { IfOk result (λ l. Keeps (virtual_code function.now) (location_code l)) }
    ensures taken { IfOk result (λ l. is_accepted function.now certificate.now ≡ true → l.code ≡ placed_by function.now.code certificate.now) }
    ensures spilled { IfOk result (λ l. is_accepted function.now certificate.now ≡ false → l.code ≡ in_slots function.now.code) }
{
    match accept(alloc, function, certificate) {
        Ok(located) => Ok(located),
        Err(Refused::No) => spill_all(alloc, function),
        Err(Refused::Memory) => Err(AllocError),
    }
}

/// The function in location code: by the certificate that the strategy answers, where it answers a right one, else with every register in a slot of its own.
///
/// # Errors
///
/// Only where memory was refused.
pub fn allocated(
    alloc: Global,
    function: &VFunc,
    allocator: &mut dyn Strategy,
) -> Result<LFunc, AllocError>
    ensures { IfOk result (λ l. Keeps (virtual_code function.now) (location_code l)) }
{
    let live = live(alloc, function)?;
    match allocator.choose(function, &live) {
        Some(certificate) => certified(alloc, function, &certificate),
        None => spill_all(alloc, function),
    }
}

/// The function as it is selected: with every register in a slot of its own, its frame takes no more of the stack than a call of the function is counted for, and
/// its code is as light as the function.
fn selected(alloc: Global, func: &Func) -> Result<VFunc, AllocError>
    requires { IsGoodFunction func.now }
    ensures is { IfOk result (λ v. IsCodeOf func.now (virtual_code v)) }
    ensures takes { IfOk result (λ v. frame_bound v.code v.registers ≤ need func.now) }
    ensures light { IfOk result (λ v. code_weight v.code ≤ weight func.now) }
{
    let lowered = lower(alloc, func)?;
    let function = select(alloc, &lowered)?;
    Ok(function)
}

/// The function as it is selected, with calls of these candidates in place.
fn with_calls_placed(
    alloc: Global,
    candidates: &[Option<VFunc>],
    func: &Func,
) -> Result<VFunc, AllocError>
    requires { IsGoodFunction func.now }
    ensures { IfOk result (λ v. IsCodeWith candidates.now func.now (virtual_code v)) }
{
    let function = selected(alloc, func)?;
    inline_calls(alloc, function, candidates)
}

/// The function by the pass in this line of the table, if that is due.
#[tactic(auto, using(crate::proofs::Placing::stays_with))]
fn by_pass(
    alloc: Global,
    candidates: &[Option<VFunc>],
    func: &Func,
    function: VFunc,
    progress: &mut Progress,
    line: usize,
    pass: Pass,
) -> Result<VFunc, AllocError>
    requires { IsCodeWith candidates.now func.now (virtual_code function) }
    ensures { IfOk result (λ v. IsCodeWith candidates.now func.now (virtual_code v)) }
{
    if !progress.is_due(line, pass) {
        return Ok(function);
    }
    match pass.apply(alloc, &function)? {
        Some(made) => {
            progress.note(line, pass);
            Ok(made)
        }
        None => Ok(function),
    }
}

/// The function in virtual code: with calls of these candidates in place, and by all passes in their order. `candidates` has for names of the function's text the code
/// of the function that the name means, where that is a candidate.
///
/// # Errors
///
/// Only where memory was refused.
pub fn virtual_code_of(
    alloc: Global,
    candidates: &[Option<VFunc>],
    func: &Func,
) -> Result<VFunc, AllocError>
    requires { IsGoodFunction func.now }
    ensures { IfOk result (λ v. IsCodeWith candidates.now func.now (virtual_code v)) }
{
    let mut function = with_calls_placed(alloc, candidates, func)?;
    let mut progress = Progress::new();
    for (line, pass) in PASSES.iter().enumerate() {
        let made = by_pass(
            alloc,
            candidates,
            func,
            function,
            &mut progress,
            line,
            *pass,
        )?;
        function = made;
    }
    Ok(function)
}

/// The words of a function's machine code, with calls in this form.
pub fn laid_out(
    alloc: Global,
    form: CallForm,
    function: &FlatFunc,
) -> Result<MachineCode, AllocError>
    ensures { IfOk result (λ c. IsLaidOut form function.now.located c) }
{
    let labelled = frame(alloc, function)?;
    let code = layout(alloc, form, labelled)?;
    Ok(code)
}

/// Whether a frame takes at most the stack that a call of the function is counted for.
fn is_small(func: &Func, function: &FlatFunc) -> bool
    ensures { result ≡ true → frame_bound function.now.located.code function.now.located.slots ≤ need func.now }
{
    frame_bound(function) <= capped_need(func)
}

/// Whether a function's words are as few as its weight allows: 32 for each unit, and 256.
fn is_short(func: &Func, code: &MachineCode) -> bool
    ensures { result ≡ true → length code.now.words ≤ 32 * weight func.now + 256 }
{
    let most = weight(func).saturating_mul(32).saturating_add(256);
    code.words().len() as u64 <= most
}

/// The function by all passes, and as the strategy has it.
fn located(
    alloc: Global,
    candidates: &[Option<VFunc>],
    func: &Func,
    allocator: &mut dyn Strategy,
) -> Result<FlatFunc, AllocError>
    requires { IsGoodFunction func.now }
    ensures is { IfOk result (λ p. IsCodeWith candidates.now func.now (location_code p.located)) }
    ensures keeps { IfOk result (λ p. FlatKept p.located.code) }
{
    let function = virtual_code_of(alloc, candidates, func)?;
    let located = allocated(alloc, &function, allocator)?;
    let scheduled = schedule(alloc, located)?;
    Ok(flat(scheduled))
}

/// The words of location code of a function. None where its frame takes more of the stack than a call of the function is counted for, or where its words are more
/// than its weight allows.
fn fitting(
    alloc: Global,
    form: CallForm,
    func: &Func,
    function: &FlatFunc,
) -> Result<Option<MachineCode>, AllocError>
    ensures { IfOk result (λ o. IfSome o (λ c. IsLaidOut form function.now.located c
        × (frame_bound function.now.located.code function.now.located.slots ≤ need func.now)
        × (length c.words ≤ 32 * weight func.now + 256))) }
{
    let code = laid_out(alloc, form, function)?;
    if is_small(func, function) && is_short(func, &code) {
        Ok(Some(code))
    } else {
        Ok(None)
    }
}

/// By all passes, and as the strategy has it. None where that doesn't fit: passes may add registers and copy lines, and nothing else bounds how many.
fn optimized(
    alloc: Global,
    form: CallForm,
    candidates: &[Option<VFunc>],
    func: &Func,
    allocator: &mut dyn Strategy,
) -> Result<Option<MachineCode>, AllocError>
    requires { IsGoodFunction func.now }
    ensures { IfOk result (λ o. IfSome o (λ c. StandWithin form candidates.now func.now c)) }
{
    let placed = located(alloc, candidates, func, allocator)?;
    fitting(alloc, form, func, &placed)
}

/// The function as it is selected, with every register in a slot of its own.
fn spilled(alloc: Global, func: &Func) -> Result<FlatFunc, AllocError>
    requires { IsGoodFunction func.now }
    ensures is { IfOk result (λ p. IsCodeOf func.now (location_code p.located)) }
    ensures keeps { IfOk result (λ p. FlatKept p.located.code) }
    ensures fits { IfOk result (λ p. frame_bound p.located.code p.located.slots ≤ need func.now) }
    ensures weighs { IfOk result (λ p. code_weight p.located.code ≤ weight func.now) }
{
    let selected = selected(alloc, func)?;
    let located = spill_all(alloc, &selected)?;
    Ok(flat(located))
}

/// As it is selected, with every register in a slot of its own: its frame takes no more of the stack than a call of the function is counted for, and its words
/// are as few as its weight allows.
fn unoptimized(alloc: Global, form: CallForm, func: &Func) -> Result<MachineCode, AllocError>
    requires { IsGoodFunction func.now }
    ensures { IfOk result (λ c. StandWithin form [] func.now c) }
{
    let placed = spilled(alloc, func)?;
    laid_out(alloc, form, &placed)
}

/// By all passes where that fits, else as it is selected.
fn without_calls_placed(
    alloc: Global,
    form: CallForm,
    func: &Func,
    allocator: &mut dyn Strategy,
) -> Result<MachineCode, AllocError>
    requires { IsGoodFunction func.now }
    ensures { IfOk result (λ c. StandWithin form [] func.now c) }
{
    match optimized(alloc, form, &[], func, allocator)? {
        Some(code) => Ok(code),
        None => unoptimized(alloc, form, func),
    }
}

/// With calls of candidates in place where that fits, else without.
fn promoted_words(
    alloc: Global,
    form: CallForm,
    candidates: &[Option<VFunc>],
    func: &Func,
    allocator: &mut dyn Strategy,
) -> Result<MachineCode, AllocError>
    requires { IsGoodFunction func.now }
    ensures { IfOk result (λ c. StandWithin form candidates.now func.now c) }
{
    match optimized(alloc, form, candidates, func, allocator)? {
        Some(code) => Ok(code),
        None => without_calls_placed(alloc, form, func, allocator),
    }
}

/// The function in virtual code, with calls of these candidates in place, if it is a candidate.
fn candidate_of(
    alloc: Global,
    below: &[Option<VFunc>],
    func: &Func,
) -> Result<Option<VFunc>, AllocError>
    requires { IsGoodFunction func.now }
    ensures { IfOk result (λ o. IfSome o (λ v. IsCodeWith below.now func.now (virtual_code v) × IsTrue (is_candidate v.code))) }
{
    let function = with_calls_placed(alloc, below, func)?;
    if is_candidate(&function) {
        Ok(Some(function))
    } else {
        Ok(None)
    }
}

/// The code of a function, with calls of these candidates in place, if it is a candidate.
///
/// # Errors
///
/// Only where memory was refused.
pub fn candidate_code(
    alloc: Global,
    below: &[Option<VFunc>],
    func: &Func,
) -> Result<Option<VFunc>, AllocError>
    requires { IsGoodFunction func.now }
    ensures { IfOk result (λ o. IfSome o (λ v. IsCandidateCode below.now func.now v)) }
{
    let promoted = promote(alloc, func)?;
    candidate_of(alloc, below, &promoted)
}

/// The words of a function, whose locals are taken out of memory first: by all passes, with calls of candidates in place where that fits, else without; and as it is
/// selected where all that doesn't fit. Calls have the form that is asked for.
///
/// # Errors
///
/// Only where memory was refused.
pub fn function_words(
    alloc: Global,
    form: CallForm,
    candidates: &[Option<VFunc>],
    func: &Func,
    allocator: &mut dyn Strategy,
) -> Result<MachineCode, AllocError>
    requires { IsGoodFunction func.now }
    ensures stand { IfOk result (λ c. (promoted : PromotedFunc) × IsPromoted func.now promoted × StandWith candidates.now promoted c) }
    ensures few { IfOk result (λ c. length c.words ≤ 32 * weight func.now + 256) }
    ensures calls { IfOk result (λ c. HaveForm form c.holes) }
{
    if !has_alloc(func) {
        return promoted_words(alloc, form, candidates, func, allocator);
    }
    let promoted = promote(alloc, func)?;
    promoted_words(alloc, form, candidates, &promoted, allocator)
}
