//! The test of a code that may be a function's.
ghost use Rattle.std.specs.Prelude.{◌≡◌, ◌+◌, ◌≤◌, true, not, nat_le, length, IfSome};
ghost use Rattle.std.specs.List.{list_all, list_any, sum_by};
ghost use Rattle.il_ast.specs.declared.limits.TheConstants.{FUNCTION_WEIGHT};
ghost use Rattle.vcode.specs.Prelude.{is_paid, operand_keeps, wanted_keeps, made_keeps, line_keeps, jump_keeps, block_keeps, keeps_places, are_distinct, IsRegular, is_target, leads_inside, is_alloc, allocs_first, alloc_bytes, passes_few, weight_of};
ghost use Rattle.step_by_step.specs.Function.{IsFunction, measured};

use crate::code_text::rules::place::CodePlace;
use il_ast::limits::{ALLOC_BYTES, ARGUMENTS, FUNCTION_WEIGHT};
use vcode::cost::is_paid;
use vcode::limits::PLACES;
use vcode::{Argument, Block, Code, Destination, Jump, Line, Operand};

// ---- the places that it names

fn operand<P: CodePlace>(count: u32, value: &Operand<P>) -> bool
    ensures { result ≡ operand_keeps (P.exists count) value.now }
{
    match value {
        Operand::At(place) => place.exists(count),
        Operand::Number(_) => true,
        Operand::Name(_) => true,
    }
}

fn wanted<P: CodePlace>(count: u32, to: &Option<Destination<P>>) -> bool
    ensures { result ≡ wanted_keeps (P.exists count) to.now }
{
    match to {
        Some(result) => result.place.exists(count),
        None => true,
    }
}

fn made<P: CodePlace>(count: u32, to: &Option<P>) -> bool
    ensures { result ≡ made_keeps (P.exists count) to.now }
{
    match to {
        Some(place) => place.exists(count),
        None => true,
    }
}

fn args<P: CodePlace>(count: u32, args: &[Argument<P>]) -> bool
    ensures { result ≡ list_all (λ a. operand_keeps (P.exists count) a.value) args.now }
{
    args.iter().all(|arg| operand(count, &arg.value))
}

fn line<P: CodePlace>(count: u32, line: &Line<P>) -> bool
    ensures { result ≡ line_keeps (P.exists count) line.now }
{
    match line {
        Line::Tick { .. } => true,
        Line::Set { to, value } => to.exists(count) && operand(count, value),
        Line::Operate {
            to,
            left,
            right,
            ..
        } => to.exists(count) && operand(count, left) && operand(count, right),
        Line::Load { to, at, .. } => to.exists(count) && operand(count, &at.base),
        Line::Store { value, at, .. } => operand(count, value) && operand(count, &at.base),
        Line::Alloc { to, .. } => made(count, to),
        Line::Blit { from, to, .. } => operand(count, from) && operand(count, to),
        Line::Call {
            to,
            callee,
            args: passed,
        } => wanted(count, to) && operand(count, callee) && args(count, passed.as_slice()),
    }
}

fn jump<P: CodePlace>(count: u32, jump: &Jump<P>) -> bool
    ensures { result ≡ jump_keeps (P.exists count) jump.now }
{
    match jump {
        Jump::Goto(_) => true,
        Jump::Branch { on, .. } => operand(count, &on.left) && operand(count, &on.right),
        Jump::Return(None) => true,
        Jump::Return(Some(returned)) => operand(count, &returned.value),
        Jump::Halt => true,
    }
}

fn lines<P: CodePlace>(count: u32, lines: &[Line<P>]) -> bool
    ensures { result ≡ list_all (line_keeps (P.exists count)) lines.now }
{
    lines.iter().all(|from| line(count, from))
}

fn block<P: CodePlace>(count: u32, block: &Block<P>) -> bool
    ensures { result ≡ block_keeps (P.exists count) block.now }
{
    lines(count, block.lines.as_slice()) && jump(count, &block.jump)
}

fn blocks<P: CodePlace>(count: u32, blocks: &[Block<P>]) -> bool
    ensures { result ≡ list_all (block_keeps (P.exists count)) blocks.now }
{
    blocks.iter().all(|from| block(count, from))
}

fn params<P: CodePlace>(count: u32, params: &[Destination<P>]) -> bool
    ensures { result ≡ list_all (λ d. P.exists count d.place) params.now }
{
    params.iter().all(|param| param.place.exists(count))
}

fn names_places<P: CodePlace>(count: u32, code: &Code<P>) -> bool
    ensures { result ≡ keeps_places (P.exists count) code.now }
{
    params(count, code.params.as_slice()) && blocks(count, code.blocks.as_slice())
}

// ---- its parameters

fn are_near<P: CodePlace>(params: &[Destination<P>]) -> bool
    ensures { result ≡ list_all (λ d. P.near d.place) params.now }
{
    params.iter().all(|param| param.place.is_near())
}

fn is_among<P: CodePlace>(place: P, params: &[Destination<P>]) -> bool
    ensures { result ≡ list_any (λ e. P.apart.same place e.place) params.now }
{
    params.iter().any(|param| place.is_same(param.place))
}

fn are_distinct<P: CodePlace>(params: &[Destination<P>]) -> bool
    ensures { result ≡ are_distinct P.apart params.now }
{
    for (k, param) in params.iter().enumerate() {
        if is_among(param.place, &params[k + 1..]) {
            return false;
        }
    }
    true
}

// ---- its jumps and its blocks of memory

fn is_target(blocks: usize, block: usize) -> bool
    ensures { result ≡ is_target blocks block }
{
    0 < block && block < blocks
}

fn leads_inside<P: CodePlace>(blocks: usize, jump: &Jump<P>) -> bool
    ensures { result ≡ leads_inside blocks jump.now }
{
    match jump {
        Jump::Goto(block) => is_target(blocks, *block),
        Jump::Branch { met, otherwise, .. } => {
            is_target(blocks, *met) && is_target(blocks, *otherwise)
        }
        Jump::Return(_) => true,
        Jump::Halt => true,
    }
}

fn are_inside<P: CodePlace>(blocks: &[Block<P>]) -> bool
    ensures { result ≡ list_all (λ b. leads_inside (length blocks.now) b.jump) blocks.now }
{
    let count = blocks.len();
    blocks.iter().all(|block| leads_inside(count, &block.jump))
}

fn is_alloc<P: CodePlace>(line: &Line<P>) -> bool
    ensures { result ≡ is_alloc line.now }
{
    matches!(line, Line::Alloc { .. })
}

fn allocates<P: CodePlace>(lines: &[Line<P>]) -> bool
    ensures { result ≡ list_any is_alloc lines.now }
{
    lines.iter().any(|line| is_alloc(line))
}

fn block_has_no_alloc<P: CodePlace>(block: &Block<P>) -> bool
    ensures { result ≡ not (list_any is_alloc block.now.lines) }
{
    !allocates(block.lines.as_slice())
}

fn blocks_have_no_alloc<P: CodePlace>(blocks: &[Block<P>]) -> bool
    ensures { result ≡ list_all (λ b. not (list_any is_alloc b.lines)) blocks.now }
{
    blocks.iter().all(|block| block_has_no_alloc(block))
}

fn allocs_first<P: CodePlace>(blocks: &[Block<P>]) -> bool
    ensures { result ≡ allocs_first blocks.now }
{
    match blocks.split_first() {
        Some((_, rest)) => blocks_have_no_alloc(rest),
        None => true,
    }
}

/// The bytes of stack for an `alloc`, if they are few enough.
fn alloc_bytes<P: CodePlace>(line: &Line<P>) -> Option<u64>
    ensures { IfSome result (λ bytes. bytes ≡ alloc_bytes line.now) }
{
    match line {
        Line::Alloc { size, .. } => {
            if *size <= ALLOC_BYTES {
                Some((*size + 15) / 16 * 16)
            } else {
                None
            }
        }
        _ => Some(0),
    }
}

// ---- its ticks and its calls

fn weight_of<P: CodePlace>(line: &Line<P>) -> u64
    ensures { result ≡ weight_of line.now }
{
    match line {
        Line::Tick { weight, .. } => u64::from(*weight),
        _ => 0,
    }
}

/// What the lines of a function may have so much of in all.
#[derive(Clone, Copy)]
enum Measure {
    /// bytes of stack
    Stack,
    Weight,
}

/// What a line has, if a function may have so much.
fn measured<P: CodePlace>(measure: Measure, line: &Line<P>) -> Option<u64>
    ensures { IfSome result (λ has. has ≡ measured measure line.now) }
{
    match measure {
        Measure::Stack => alloc_bytes(line),
        Measure::Weight => Some(weight_of(line)),
    }
}

/// What is left of the whole behind these lines, if they have no more than that.
fn left_behind<P: CodePlace>(measure: Measure, whole: u64, lines: &[Line<P>]) -> Option<u64>
    ensures { IfSome result (λ left. sum_by (measured measure) lines.now + left ≡ whole) }
{
    let mut left = whole;
    for line in lines {
        let has = measured(measure, line)?;
        if left < has {
            return None;
        }
        left -= has;
    }
    Some(left)
}

fn is_within<P: CodePlace>(measure: Measure, most: u64, blocks: &[Block<P>]) -> bool
    ensures { result ≡ true → sum_by (λ b. sum_by (measured measure) b.lines) blocks.now ≤ most }
{
    let mut left = most;
    for block in blocks {
        match left_behind(measure, left, block.lines.as_slice()) {
            Some(rest) => left = rest,
            None => return false,
        }
    }
    true
}

/// Whether so few lines stand in each block that few turns begin there.
fn are_short<P: CodePlace>(blocks: &[Block<P>]) -> bool
    ensures { result ≡ list_all (λ b. nat_le (length b.lines) FUNCTION_WEIGHT) blocks.now }
{
    blocks
        .iter()
        .all(|block| block.lines.len() as u64 <= FUNCTION_WEIGHT)
}

fn passes_few<P: CodePlace>(line: &Line<P>) -> bool
    ensures { result ≡ passes_few line.now }
{
    match line {
        Line::Call { args, .. } => args.len() <= ARGUMENTS,
        _ => true,
    }
}

fn block_passes_few<P: CodePlace>(block: &Block<P>) -> bool
    ensures { result ≡ list_all passes_few block.now.lines }
{
    block.lines.as_slice().iter().all(|line| passes_few(line))
}

fn blocks_pass_few<P: CodePlace>(blocks: &[Block<P>]) -> bool
    ensures { result ≡ list_all (λ b. list_all passes_few b.lines) blocks.now }
{
    blocks.iter().all(|block| block_passes_few(block))
}

fn are_paid<P: CodePlace>(blocks: &[Block<P>]) -> bool
    ensures { result ≡ list_all is_paid blocks.now }
{
    blocks.iter().all(|block| is_paid(block))
}

fn is_regular<P: CodePlace>(code: &Code<P>) -> bool
    ensures { result ≡ true → IsRegular code.now }
{
    let blocks = code.blocks.as_slice();
    if code.params.len() > ARGUMENTS {
        return false;
    }
    if !are_inside(blocks) {
        return false;
    }
    if !allocs_first(blocks) {
        return false;
    }
    if !is_within(Measure::Stack, ALLOC_BYTES, blocks) {
        return false;
    }
    if !are_paid(blocks) {
        return false;
    }
    if !are_short(blocks) {
        return false;
    }
    blocks_pass_few(blocks)
}

/// Whether the code may be that of a function with so many registers or slots.
pub fn is_function<P: CodePlace>(count: u32, code: &Code<P>) -> bool
    ensures { result ≡ true → IsFunction P.exists P.near P.apart count code.now }
{
    if count >= PLACES {
        return false;
    }
    if !is_regular(code) {
        return false;
    }
    if !is_within(Measure::Weight, FUNCTION_WEIGHT, code.blocks.as_slice()) {
        return false;
    }
    if !names_places(count, code) {
        return false;
    }
    if !are_near(code.params.as_slice()) {
        return false;
    }
    are_distinct(code.params.as_slice())
}
