//! Blocks whose registers have other names.
ghost use Rattle.std.specs.Prelude.{◌≡◌, true, Some, IfOk, OnOk, IfSome};
ghost use Rattle.vcode.specs.Prelude.{line_writes};
ghost use Rattle.renaming.specs.Renamed.{reads_named, with_destination, IsRenamed, AreRenamed, IsEnded, IsRenamedBlock, AllRenamed, start_at, jump_meets, owners_of, names_of};

use crate::names::Names;
use crate::plan::{Plan, Renamed};
use cfg_live::uses::line_writes;
use il_ast::Seq;
use std::alloc::{AllocError, Global};
use vcode::{Block, Jump, Line, replace};

/// The line writes this register, if it writes any.
fn put_destination(line: &mut Line<u32>, name: u32)
    ensures { line.new ≡ with_destination name line.old }
{
    match line {
        Line::Set { to, .. } => *to = name,
        Line::Operate { to, .. } => *to = name,
        Line::Load { to, .. } => *to = name,
        Line::Alloc { to: Some(to), .. } => *to = name,
        Line::Call { to: Some(to), .. } => to.place = name,
        Line::Tick { .. }
        | Line::Store { .. }
        | Line::Alloc { to: None, .. }
        | Line::Blit { .. }
        | Line::Call { to: None, .. } => {}
    }
}

/// The line by the names, which writes the register under this name, if it may.
fn written(
    alloc: Global,
    names: &mut Names,
    from: &Line<u32>,
    register: u32,
    name: u32,
) -> Result<Option<Line<u32>>, AllocError>
    requires named { reads_named (names_of names.old) from.now ≡ true }
    requires writes { line_writes from.now ≡ Some register }
    ensures line { IfOk result (λ o. IfSome o (λ m. IsRenamed (owners_of names.old) (names_of names.old) from.now m (names_of names.new))) }
    ensures owners { OnOk result (owners_of names.new ≡ owners_of names.old) }
{
    if !names.is_name(register, name) {
        return Ok(None);
    }
    let mut put = replace::line(alloc, names, from)?;
    let is_called = names.call(register, name)?;
    if is_called {
        put_destination(&mut put, name);
        Ok(Some(put))
    } else {
        Ok(None)
    }
}

/// The line by the names; none where it reads what has no name, or writes what may not have the planned one.
fn line(
    alloc: Global,
    names: &mut Names,
    planned: u32,
    from: &Line<u32>,
) -> Result<Option<Line<u32>>, AllocError>
    ensures line { IfOk result (λ o. IfSome o (λ m. IsRenamed (owners_of names.old) (names_of names.old) from.now m (names_of names.new))) }
    ensures owners { OnOk result (owners_of names.new ≡ owners_of names.old) }
{
    if !names.reads_named(from) {
        return Ok(None);
    }
    match line_writes(from) {
        None => {
            let put = replace::line(alloc, names, from)?;
            Ok(Some(put))
        }
        Some(register) => {
            let name = if names.is_plain(register) {
                register
            } else {
                planned
            };
            written(alloc, names, from, register, name)
        }
    }
}

fn planned(written: &[u32], number: usize) -> u32 {
    match written.get(number) {
        Some(name) => *name,
        None => 0,
    }
}

fn lines(
    alloc: Global,
    names: &mut Names,
    written: &[u32],
    from: &[Line<u32>],
) -> Result<Option<Vec<Line<u32>>>, AllocError>
    ensures lines { IfOk result (λ o. IfSome o (λ v. AreRenamed (owners_of names.old) (names_of names.old) from.now v.items (names_of names.new))) }
    ensures owners { OnOk result (owners_of names.new ≡ owners_of names.old) }
{
    let mut made = Vec::with_capacity(alloc, from.len())?;
    for (number, item) in from.iter().enumerate() {
        match line(alloc, names, planned(written, number), item)? {
            Some(put) => made.push(put)?,
            None => return Ok(None),
        }
    }
    Ok(Some(made))
}

/// The names with which a block begins.
pub(crate) fn start_at(starts: &[Seq<Renamed>], block: usize) -> &[Renamed]
    ensures { result.now ≡ start_at starts.now block }
{
    match starts.get(block) {
        Some(start) => start.as_slice(),
        None => &[],
    }
}

fn meets(names: &Names, starts: &[Seq<Renamed>], jump: &Jump<u32>) -> bool
    ensures { result ≡ jump_meets (names_of names.now) starts.now jump.now }
{
    match jump {
        Jump::Goto(block) => names.are_met(start_at(starts, *block)),
        Jump::Branch { met, otherwise, .. } => {
            names.are_met(start_at(starts, *met)) && names.are_met(start_at(starts, *otherwise))
        }
        _ => true,
    }
}

/// The block of these lines, with the jump by the names.
fn ended(
    names: &Names,
    starts: &[Seq<Renamed>],
    lines: Vec<Line<u32>>,
    jump: &Jump<u32>,
) -> Option<Block<u32>>
    ensures { IfSome result (λ d. IsEnded (names_of names.now) starts.now jump.now d lines.items) }
{
    if names.jump_named(jump) && meets(names, starts, jump) {
        Some(Block {
            lines: Seq::from_vec(lines),
            jump: replace::jump(names, jump),
        })
    } else {
        None
    }
}

fn block(
    alloc: Global,
    names: &mut Names,
    plan: &Plan,
    number: usize,
    from: &Block<u32>,
) -> Result<Option<Block<u32>>, AllocError>
    ensures block { IfOk result (λ o. IfSome o (λ d. IsRenamedBlock (owners_of names.old) plan.now.starts.items number from.now d)) }
    ensures owners { OnOk result (owners_of names.new ≡ owners_of names.old) }
{
    let start = start_at(plan.starts.as_slice(), number);
    if !names.are_names(start) || !names.begin(start)? {
        return Ok(None);
    }
    match lines(
        alloc,
        names,
        names_planned(plan, number),
        from.lines.as_slice(),
    )? {
        Some(lines) => Ok(ended(names, plan.starts.as_slice(), lines, &from.jump)),
        None => Ok(None),
    }
}

fn names_planned(plan: &Plan, block: usize) -> &[u32] {
    match plan.written.get(block) {
        Some(written) => written.as_slice(),
        None => &[],
    }
}

/// The blocks by the plan; none where it isn't right.
///
/// # Errors
///
/// Only where memory was refused.
pub(crate) fn blocks(
    alloc: Global,
    names: &mut Names,
    plan: &Plan,
    from: &[Block<u32>],
) -> Result<Option<Vec<Block<u32>>>, AllocError>
    ensures { IfOk result (λ o. IfSome o (λ v. AllRenamed (owners_of names.old) plan.now.starts.items 0 from.now v.items)) }
{
    let mut made = Vec::with_capacity(alloc, from.len())?;
    for (number, item) in from.iter().enumerate() {
        match block(alloc, names, plan, number, item)? {
            Some(put) => made.push(put)?,
            None => return Ok(None),
        }
    }
    Ok(Some(made))
}
