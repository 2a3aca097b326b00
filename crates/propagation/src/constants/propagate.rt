//! Blocks and functions, put by what is known.
ghost use Rattle.std.specs.Prelude.{◌≡◌, true, ◌+◌, ◌*◌, ◌^◌, ◌<◌, ◌≤◌, [], ℕ, List, length, IfOk, IfSome, None};
ghost use Rattle.il_ast.specs.Prelude.{Keeps};
ghost use Rattle.vcode.specs.declared.line.Line.{Line as ALine};
ghost use Rattle.vcode.specs.declared.line.Jump.{Jump as AJump};
ghost use Rattle.vcode.specs.Prelude.{virtual_code};
ghost use Rattle.propagation.specs.declared.constants.claim.Entry.{Entry};
ghost use Rattle.propagation.specs.FactTable.{facts_of, IsTable};
ghost use Rattle.propagation.specs.Forwarded.{claimed, IsPut, IsPutJump, AreForwarded, IsForwarded, AllForwarded, changes_memory, sum_of, fact_of, after};

use crate::constants::claim::{Claim, Entry, claims_at, leads_well};
use crate::constants::entries::entries;
use crate::constants::fact::Fact;
use crate::constants::look::{Extent, block_may_change, first_change};
use crate::constants::replace::{is_add, jump, line as forwarded};
use crate::constants::table::FactTable;
use cfg_live::uses::line_writes;
use il_ast::Seq;
use std::alloc::{AllocError, Global};
use vcode::line::push_lines;
use vcode::{Block, Comparison, Destination, Jump, Line, Operand, Operation, VFunc};

fn changes_memory(line: &Line<u32>) -> bool
    ensures { result ≡ changes_memory line.now }
{
    match line {
        Line::Store { .. } | Line::Alloc { .. } | Line::Blit { .. } | Line::Call { .. } => true,
        _ => false,
    }
}

/// A sum of a register and a number.
fn sum_of(left: Operand<u32>, right: Operand<u32>) -> Option<Fact>
    ensures { result ≡ sum_of left right }
{
    match (left, right) {
        (Operand::At(_), Operand::Number(number)) => Some(Fact::Sum(left, number)),
        _ => None,
    }
}

/// What a line makes known of the register that it writes.
fn fact_of(line: &Line<u32>) -> Option<Fact>
    ensures { result ≡ fact_of line.now }
{
    match line {
        Line::Set { value, .. } => Some(Fact::Same(*value)),
        Line::Operate {
            operation: Operation::Compare(condition, class),
            left,
            right,
            ..
        } => Some(Fact::Test(Comparison {
            condition: *condition,
            class: *class,
            left: *left,
            right: *right,
        })),
        Line::Operate {
            operation: Operation::Reg(op),
            left,
            right,
            ..
        } => {
            if is_add(Operation::Reg(*op)) {
                sum_of(*left, *right)
            } else {
                None
            }
        }
        _ => None,
    }
}

/// Whether one operand is a register where the other is.
fn are_alike(one: &Operand<u32>, other: &Operand<u32>) -> bool {
    match (one, other) {
        (Operand::At(_), Operand::At(_)) => true,
        (Operand::At(_), _) | (_, Operand::At(_)) => false,
        _ => true,
    }
}

/// Whether a line reads registers where the other does. A copy may become a number.
fn reads_alike(one: &Line<u32>, other: &Line<u32>) -> bool {
    match (one, other) {
        (Line::Tick { .. } | Line::Set { .. } | Line::Alloc { .. }, _) => true,
        (
            Line::Operate { left, right, .. },
            Line::Operate {
                left: first,
                right: second,
                ..
            },
        ) => are_alike(left, first) && are_alike(right, second),
        (Line::Load { at, .. }, Line::Load { at: new, .. }) => are_alike(&at.base, &new.base),
        (
            Line::Store { value, at, .. },
            Line::Store {
                value: new,
                at: there,
                ..
            },
        ) => are_alike(value, new) && are_alike(&at.base, &there.base),
        _ => false,
    }
}

/// Whether a jump is one way, or reads registers where the other does.
fn jumps_alike(one: &Jump<u32>, other: &Jump<u32>) -> bool {
    match (one, other) {
        (_, Jump::Goto(_)) => true,
        (Jump::Branch { on, .. }, Jump::Branch { on: new, .. }) => {
            are_alike(&on.left, &new.left) && are_alike(&on.right, &new.right)
        }
        _ => false,
    }
}

/// A line, put by what is known as far as that goes.
fn put_line(
    alloc: Global,
    table: &FactTable,
    extent: Extent,
    line: &Line<u32>,
) -> Result<Line<u32>, AllocError>
    ensures { IfOk result (λ m. IsPut (facts_of table.now) line.now m) }
{
    let put = forwarded(alloc, table, line)?;
    match extent {
        Extent::Copies if !reads_alike(line, &put) => line.try_clone(alloc),
        _ => Ok(put),
    }
}

/// The jump behind these lines, put by what is known as far as that goes.
fn put_jump(table: &FactTable, extent: Extent, lines: &[Line<u32>], from: &Jump<u32>) -> Jump<u32>
    ensures { IsPutJump lines.now (facts_of table.now) from.now result }
{
    let put = jump(table, lines, from);
    match extent {
        Extent::Copies if !jumps_alike(from, &put) => *from,
        _ => put,
    }
}

/// A line was done.
fn pass(table: &mut FactTable, line: &Line<u32>)
    requires table { IsTable table.old }
    requires runs { table.old.clock + 1 < 2 ^ 128 }
    ensures table { IsTable table.new }
    ensures after { (q : ℕ) → facts_of table.new q ≡ after (length table.old.written.items) line.now (facts_of table.old) q }
    ensures clock { table.new.clock ≡ table.old.clock + 1 }
    ensures count { length table.new.written.items ≡ length table.old.written.items }
{
    table.tick(changes_memory(line));
    if let Some(register) = line_writes(line) {
        table.write(register, fact_of(line));
    }
}

/// These claims are made where a block begins.
fn claim_all(table: &mut FactTable, claims: &[Claim])
    requires table { IsTable table.old }
    requires runs { table.old.clock + length claims.now < 2 ^ 128 }
    ensures table { IsTable table.new }
    ensures facts { facts_of table.new ≡ claimed (length table.old.written.items) (facts_of table.old) claims.now }
    ensures clock { table.new.clock ≡ table.old.clock + length claims.now }
    ensures count { length table.new.written.items ≡ length table.old.written.items }
{
    for claim in claims {
        pass(
            table,
            &Line::Set {
                to: claim.register,
                value: claim.value,
            },
        );
    }
}

/// The lines, put by what is known before each of them.
fn forwarded_lines(
    alloc: Global,
    table: &mut FactTable,
    extent: Extent,
    lines: &[Line<u32>],
) -> Result<Vec<Line<u32>>, AllocError>
    requires table { IsTable table.old }
    requires runs { table.old.clock + length lines.now < 2 ^ 128 }
    ensures table { IsTable table.new }
    ensures clock { IfOk result (λ v. table.new.clock ≡ table.old.clock + length lines.now) }
    ensures count { length table.new.written.items ≡ length table.old.written.items }
    ensures lines { IfOk result (λ v. (entries : List Entry) (whole : List (ALine ℕ)) (j k : AJump ℕ) → AreForwarded (length table.old.written.items) entries whole (facts_of table.new) [] [] j k → AreForwarded (length table.old.written.items) entries whole (facts_of table.old) lines.now v.items j k) }
{
    let mut made = Vec::with_capacity(alloc, lines.len())?;
    for line in lines {
        let put = put_line(alloc, table, extent, line)?;
        pass(table, &put);
        made.push(put)?;
    }
    Ok(made)
}

/// Whether nothing is claimed of any block, and nothing of this one may be put otherwise, as of none before the first that may.
fn stays(entries: &[Entry], extent: Extent, first: usize, number: usize, block: &Block<u32>) -> bool
    ensures { result ≡ true → entries.now ≡ [] }
{
    entries.is_empty()
        && (number < first || number != first && !block_may_change(extent, &[], block))
}

fn as_it_is(alloc: Global, block: &Block<u32>) -> Result<Block<u32>, AllocError>
    ensures { IfOk result (λ c. c ≡ block.now) }
{
    let mut lines = Vec::with_capacity(alloc, block.lines.len())?;
    push_lines(alloc, &mut lines, block.lines.as_slice())?;
    Ok(Block {
        lines: Seq::from_vec(lines),
        jump: block.jump,
    })
}

/// The block from what is claimed where it begins, if what is claimed where it leads is known. It is made line by line only where it may be another.
fn forwarded_block(
    alloc: Global,
    entries: &[Entry],
    table: &mut FactTable,
    extent: Extent,
    first: usize,
    number: usize,
    block: &Block<u32>,
) -> Result<Option<Block<u32>>, AllocError>
    requires table { IsTable table.old }
    requires later { table.old.clock ≤ number * 2 ^ 64 }
    ensures table { IsTable table.new }
    ensures clock { IfOk result (λ o. IfSome o (λ v. table.new.clock ≤ (number + 1) * 2 ^ 64)) }
    ensures count { length table.new.written.items ≡ length table.old.written.items }
    ensures block { IfOk result (λ o. IfSome o (λ v. IsForwarded (length table.old.written.items) entries.now number block.now v)) }
{
    if stays(entries, extent, first, number, block) {
        let same = as_it_is(alloc, block)?;
        return Ok(Some(same));
    }
    let claims = claims_at(entries, number);
    let lines = block.lines.as_slice();
    if claims.len() > usize::MAX - lines.len() {
        return Ok(None);
    }
    table.begin(number);
    claim_all(table, claims);
    let lines = forwarded_lines(alloc, table, extent, lines)?;
    let jump = put_jump(table, extent, &lines, &block.jump);
    if !leads_well(table, entries, &jump) {
        return Ok(None);
    }
    Ok(Some(Block {
        lines: Seq::from_vec(lines),
        jump,
    }))
}

fn forwarded_blocks(
    alloc: Global,
    entries: &[Entry],
    table: &mut FactTable,
    extent: Extent,
    first: usize,
    blocks: &[Block<u32>],
) -> Result<Option<Seq<Block<u32>>>, AllocError>
    requires table { IsTable table.old }
    requires starts { table.old.clock ≡ 0 }
    ensures { IfOk result (λ o. IfSome o (λ v. AllForwarded (length table.old.written.items) entries.now 0 blocks.now v)) }
{
    let mut made = Vec::with_capacity(alloc, blocks.len())?;
    for (number, block) in blocks.iter().enumerate() {
        match forwarded_block(alloc, entries, table, extent, first, number, block)? {
            Some(block) => made.push(block)?,
            None => return Ok(None),
        }
    }
    Ok(Some(Seq::from_vec(made)))
}

/// The function by these claims, if they are right, and something may be put otherwise.
fn propagated(
    alloc: Global,
    function: &VFunc,
    extent: Extent,
    entries: &[Entry],
) -> Result<Option<VFunc>, AllocError>
    ensures { IfOk result (λ o. IfSome o (λ w. Keeps (virtual_code function.now) (virtual_code w))) }
{
    if claims_at(entries, 0).len() != 0 {
        return Ok(None);
    }
    let blocks = function.code.blocks.as_slice();
    let Some(first) = first_change(extent, entries, blocks) else {
        return Ok(None);
    };
    let mut table = FactTable::new(alloc, function.registers)?;
    match forwarded_blocks(alloc, entries, &mut table, extent, first, blocks)? {
        Some(blocks) => {
            let made = function.with_blocks(alloc, function.registers, blocks)?;
            Ok(Some(made))
        }
        None => Ok(None),
    }
}

/// The function with operands that are known copies or numbers replaced by what they are; with sums and addresses of known sums with numbers put as one sum or
/// address; with operations on numbers and by powers of two in their short forms; with branches on results of comparisons put as branches on the comparisons, where
/// the ticks of the block pay for it; and with branches on two numbers put as jumps. Each fact counts as long as no line makes it false: along its block, and that
/// a register holds a number also in blocks where each way that leads there knows it. It takes time and memory as the text is long.
///
/// # Errors
///
/// Only where memory was refused.
pub fn propagate_constants(alloc: Global, function: &VFunc) -> Result<Option<VFunc>, AllocError>
    ensures { IfOk result (λ o. IfSome o (λ w. Keeps (virtual_code function.now) (virtual_code w))) }
{
    let entries = entries(alloc, function)?;
    match propagated(alloc, function, Extent::Operands, entries.as_slice())? {
        None if !entries.is_empty() => propagated(alloc, function, Extent::Operands, &[]),
        made => Ok(made),
    }
}

/// The function, in which a branch whose outcome is known by the lines of its block is a jump, and what is copied is read in the place of its copy. No number takes the
/// place of a register but in a copy, so constants that stand in registers are read there. It takes time and memory as the text is long.
///
/// # Errors
///
/// Only where memory was refused.
pub fn fold_branches(alloc: Global, function: &VFunc) -> Result<Option<VFunc>, AllocError>
    ensures { IfOk result (λ o. IfSome o (λ w. Keeps (virtual_code function.now) (virtual_code w))) }
{
    propagated(alloc, function, Extent::Copies, &[])
}
