//! Blocks and functions in which values are used again.
ghost use Rattle.std.specs.Prelude.{◌≡◌, ◌+◌, ℕ, List, [], true, map, IsTrue, IfOk, IfSome};
ghost use Rattle.il_ast.specs.Prelude.{Keeps};
ghost use Rattle.vcode.specs.declared.code.Block.{Block as ABlock};
ghost use Rattle.vcode.specs.Prelude.{virtual_code, is_paid};
ghost use Rattle.sign_extensions.specs.Whole.{are_closed};
ghost use Rattle.value_numbering.specs.Reused.{claims_at, LeadsWell, IsReused, AllReused};

use crate::claims::claims;
use crate::fact::Fact;
use crate::lines::lines;
use crate::repeats::blocks_may_repeat;
use crate::ways::{are_known, order_met, order_missed};
use il_ast::Seq;
use sign_extensions::marks::whole_registers;
use std::alloc::{AllocError, Global};
use vcode::cost::is_paid;
use vcode::{Block, Jump, VFunc};

/// The facts claimed where a block begins.
fn claims_at(claims: &[Seq<Fact>], block: usize) -> &[Fact]
    ensures { result.now ≡ claims_at claims.now block }
{
    match claims.get(block) {
        Some(facts) => facts.as_slice(),
        None => &[],
    }
}

/// Whether what is claimed of each block that a jump may lead to is known.
fn leads_well(marks: &[bool], claims: &[Seq<Fact>], facts: &[Fact], jump: &Jump<u32>) -> bool
    ensures { result ≡ true → LeadsWell marks.now claims.now facts.now jump.now }
{
    match jump {
        Jump::Goto(block) => are_known(marks, facts, &None, claims_at(claims, *block)),
        Jump::Branch { on, met, otherwise } => {
            are_known(marks, facts, &order_met(on), claims_at(claims, *met))
                && are_known(
                    marks,
                    facts,
                    &order_missed(on),
                    claims_at(claims, *otherwise),
                )
        }
        Jump::Return(_) | Jump::Halt => true,
    }
}

/// The block, if its ticks pay for it.
fn if_paid(block: Block<u32>) -> Option<Block<u32>>
    ensures { IfSome result (λ d. (d ≡ block) × (is_paid d ≡ true)) }
{
    if is_paid(&block) { Some(block) } else { None }
}

/// A block with copies in the place of lines, and other lines that do the same; none where the claims are not right, or its ticks don't pay for them.
fn block_by(
    alloc: Global,
    marks: &[bool],
    claims: &[Seq<Fact>],
    registers: u32,
    number: usize,
    is_thrifty: bool,
    from: &Block<u32>,
) -> Result<Option<Block<u32>>, AllocError>
    ensures { IfOk result (λ o. IfSome o (λ d. IsReused registers marks.now claims.now number from.now d)) }
{
    let known = claims_at(claims, number);
    let mut facts = Vec::with_capacity(alloc, known.len().saturating_add(from.lines.len()))?;
    facts.extend_from_slice(known)?;
    let lines = lines(
        alloc,
        &mut facts,
        registers,
        is_thrifty,
        from.lines.as_slice(),
    )?;
    if !leads_well(marks, claims, facts.as_slice(), &from.jump) {
        return Ok(None);
    }
    Ok(if_paid(Block {
        lines: Seq::from_vec(lines),
        jump: from.jump,
    }))
}

/// The same; where that is none, with such lines alone as cost no more.
fn block(
    alloc: Global,
    marks: &[bool],
    claims: &[Seq<Fact>],
    registers: u32,
    number: usize,
    from: &Block<u32>,
) -> Result<Option<Block<u32>>, AllocError>
    ensures { IfOk result (λ o. IfSome o (λ d. IsReused registers marks.now claims.now number from.now d)) }
{
    match block_by(alloc, marks, claims, registers, number, false, from)? {
        Some(made) => Ok(Some(made)),
        None => block_by(alloc, marks, claims, registers, number, true, from),
    }
}

fn blocks(
    alloc: Global,
    marks: &[bool],
    claims: &[Seq<Fact>],
    registers: u32,
    from: &[Block<u32>],
) -> Result<Option<Vec<Block<u32>>>, AllocError>
    ensures { IfOk result (λ o. IfSome o (λ v. AllReused registers marks.now claims.now 0 from.now v.items)) }
{
    let mut made = Vec::with_capacity(alloc, from.len())?;
    for (number, item) in from.iter().enumerate() {
        match block(alloc, marks, claims, registers, number, item)? {
            Some(block) => made.push(block)?,
            None => return Ok(None),
        }
    }
    Ok(Some(made))
}

/// The function by these claims of what is known where each block begins; none where they aren't right. It takes time and memory as the text and the claims are long.
///
/// # Errors
///
/// Only where memory was refused.
fn apply(
    alloc: Global,
    function: &VFunc,
    marks: &[bool],
    claims: &[Seq<Fact>],
) -> Result<Option<VFunc>, AllocError>
    requires { IsTrue (are_closed marks.now function.now.code) }
    ensures { IfOk result (λ o. IfSome o (λ w. Keeps (virtual_code function.now) (virtual_code w))) }
{
    if claims_at(claims, 0).len() != 0 {
        return Ok(None);
    }
    match blocks(
        alloc,
        marks,
        claims,
        function.registers,
        function.code.blocks.as_slice(),
    )? {
        Some(blocks) => {
            let made = function.with_blocks(alloc, function.registers, Seq::from_vec(blocks))?;
            Ok(Some(made))
        }
        None => Ok(None),
    }
}

/// The function by these claims, or else by none; none where neither are right.
fn by_these_or_none(
    alloc: Global,
    function: &VFunc,
    marks: &[bool],
    claims: &[Seq<Fact>],
) -> Result<Option<VFunc>, AllocError>
    requires { IsTrue (are_closed marks.now function.now.code) }
    ensures { IfOk result (λ o. IfSome o (λ w. Keeps (virtual_code function.now) (virtual_code w))) }
{
    match apply(alloc, function, marks, claims)? {
        Some(made) => Ok(Some(made)),
        None => apply(alloc, function, marks, &[]),
    }
}

/// The function by the claims that are found; none where no line becomes another by them.
fn by_any_claims(
    alloc: Global,
    function: &VFunc,
    marks: &[bool],
) -> Result<Option<VFunc>, AllocError>
    requires { IsTrue (are_closed marks.now function.now.code) }
    ensures { IfOk result (λ o. IfSome o (λ w. Keeps (virtual_code function.now) (virtual_code w))) }
{
    let blocks = function.code.blocks.as_slice();
    match claims(alloc, marks, function.registers, blocks)? {
        Some(claims) => by_these_or_none(alloc, function, marks, claims.as_slice()),
        None => Ok(None),
    }
}

/// The function in which lines that compute what a register holds are copies of it, extensions of what was loaded are loads, and stores of what was extended or masked write what it was made of, within
/// blocks and, where the claims are right, across them. A function in which no line may compute what another does stays as it is.
///
/// # Errors
///
/// Only where memory was refused.
pub fn reuse_values(alloc: Global, function: &VFunc) -> Result<Option<VFunc>, AllocError>
    ensures { IfOk result (λ o. IfSome o (λ w. Keeps (virtual_code function.now) (virtual_code w))) }
{
    if !blocks_may_repeat(alloc, function.code.blocks.as_slice())? {
        return Ok(None);
    }
    let marks = whole_registers(alloc, &function.code, function.registers)?;
    by_any_claims(alloc, function, marks.as_slice())
}
