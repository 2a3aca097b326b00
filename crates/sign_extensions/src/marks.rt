//! Registers that hold whole words alone.
ghost use Rattle.std.specs.Prelude.{◌≡◌, ℕ, IsTrue, IfOk};
ghost use Rattle.std.specs.List.{list_all};
ghost use Rattle.vcode.specs.declared.code.Block.{Block as BlockOf};
ghost use Rattle.sign_extensions.specs.Whole.{is_whole_number, is_marked, is_whole, keeps_whole, gives_whole, loads_whole, is_word, takes_whole, wants_whole, keeps_marks, are_closed};

use il_ast::Class;
use rv_isa::{LoadOp, RegOp};
use std::alloc::{AllocError, Global};
use vcode::{Block, Code, Destination, Line, Operand, Operation};

/// How often marks are taken away before the rest is given up.
const ROUNDS: usize = 16;

pub fn is_marked(marks: &[bool], register: u32) -> bool
    ensures { result ≡ is_marked marks.now register }
{
    match marks.get(register as usize) {
        Some(mark) => *mark,
        None => false,
    }
}

fn is_whole_number(number: u64) -> bool
    ensures { result ≡ is_whole_number number }
{
    number < 1 << 31 || u64::MAX - (1 << 31) < number
}

pub fn is_whole(marks: &[bool], operand: Operand<u32>) -> bool
    ensures { result ≡ is_whole marks.now operand }
{
    match operand {
        Operand::At(register) => is_marked(marks, register),
        Operand::Number(number) => is_whole_number(number),
        Operand::Name(_) => false,
    }
}

fn keeps_whole(operation: RegOp) -> bool
    ensures { result ≡ keeps_whole operation }
{
    match operation {
        RegOp::And | RegOp::Or | RegOp::Xor => true,
        _ => false,
    }
}

fn gives_whole(
    marks: &[bool],
    operation: Operation,
    left: Operand<u32>,
    right: Operand<u32>,
) -> bool
    ensures { result ≡ gives_whole marks.now operation left right }
{
    match operation {
        Operation::Reg(operation) => {
            keeps_whole(operation) && (is_whole(marks, left) && is_whole(marks, right))
        }
        Operation::RegW(_) => true,
        Operation::Compare(..) => true,
    }
}

fn loads_whole(op: LoadOp) -> bool
    ensures { result ≡ loads_whole op }
{
    match op {
        LoadOp::Ld | LoadOp::Lwu => false,
        _ => true,
    }
}

fn is_word(class: Class) -> bool
    ensures { result ≡ is_word class }
{
    match class {
        Class::W => true,
        Class::L => false,
    }
}

fn takes_whole(marks: &[bool], to: Destination<u32>) -> bool
    ensures { result ≡ takes_whole marks.now to }
{
    !is_marked(marks, to.place) || is_word(to.class)
}

fn wants_whole(marks: &[bool], to: Option<Destination<u32>>) -> bool
    ensures { result ≡ wants_whole marks.now to }
{
    match to {
        Some(to) => takes_whole(marks, to),
        None => true,
    }
}

/// Whether what the line writes to a marked register is whole.
fn keeps_marks(marks: &[bool], line: &Line<u32>) -> bool
    ensures { result ≡ keeps_marks marks.now line.now }
{
    match line {
        Line::Set { to, value } => !is_marked(marks, *to) || is_whole(marks, *value),
        Line::Operate {
            to,
            operation,
            left,
            right,
        } => !is_marked(marks, *to) || gives_whole(marks, *operation, *left, *right),
        Line::Load { to, op, .. } => !is_marked(marks, *to) || loads_whole(*op),
        Line::Call { to, .. } => wants_whole(marks, *to),
        Line::Tick { .. } | Line::Store { .. } | Line::Alloc { .. } | Line::Blit { .. } => true,
    }
}

fn lines_keep(marks: &[bool], lines: &[Line<u32>]) -> bool
    ensures { result ≡ list_all (keeps_marks marks.now) lines.now }
{
    lines.iter().all(|line| keeps_marks(marks, line))
}

fn blocks_keep(marks: &[bool], blocks: &[Block<u32>]) -> bool
    ensures { result ≡ list_all (λ (b : BlockOf ℕ). list_all (keeps_marks marks.now) b.lines) blocks.now }
{
    blocks
        .iter()
        .all(|block| lines_keep(marks, block.lines.as_slice()))
}

fn params_keep(marks: &[bool], params: &[Destination<u32>]) -> bool
    ensures { result ≡ list_all (takes_whole marks.now) params.now }
{
    params.iter().all(|param| takes_whole(marks, *param))
}

fn are_closed(marks: &[bool], code: &Code<u32>) -> bool
    ensures { result ≡ are_closed marks.now code.now }
{
    params_keep(marks, code.params.as_slice()) && blocks_keep(marks, code.blocks.as_slice())
}

fn unmark(marks: &mut [bool], register: u32) {
    if let Some(mark) = marks.get_mut(register as usize) {
        *mark = false;
    }
}

/// Takes away the mark of what the line writes, where that needn't be whole.
fn spread_line(marks: &mut [bool], line: &Line<u32>) {
    if keeps_marks(marks, line) {
        return;
    }
    match line {
        Line::Set { to, .. } => unmark(marks, *to),
        Line::Operate { to, .. } => unmark(marks, *to),
        Line::Load { to, .. } => unmark(marks, *to),
        Line::Call { to: Some(to), .. } => unmark(marks, to.place),
        _ => {}
    }
}

fn spread_lines(marks: &mut [bool], lines: &[Line<u32>]) {
    for line in lines {
        spread_line(marks, line);
    }
}

fn spread(marks: &mut [bool], code: &Code<u32>) {
    for param in code.params.as_slice() {
        if !takes_whole(marks, *param) {
            unmark(marks, param.place);
        }
    }
    spread_blocks(marks, code.blocks.as_slice());
}

fn spread_blocks(marks: &mut [bool], blocks: &[Block<u32>]) {
    for block in blocks {
        spread_lines(marks, block.lines.as_slice());
    }
}

/// Marks of registers that hold whole words alone; a register past the end has none. It takes time as the text is long: where marks are still lost after so many
/// rounds, no register has one.
///
/// # Errors
///
/// Only where memory was refused.
pub fn whole_registers(
    alloc: Global,
    code: &Code<u32>,
    registers: u32,
) -> Result<Vec<bool>, AllocError>
    ensures { IfOk result (λ marks. IsTrue (are_closed marks.items code.now)) }
{
    let mut marks = vec![in alloc; true; registers as usize]?;
    for _ in 0..ROUNDS {
        if are_closed(marks.as_slice(), code) {
            return Ok(marks);
        }
        spread(marks.as_mut_slice(), code);
    }
    Ok(Vec::new(alloc))
}
