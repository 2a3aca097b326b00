//! Reading a line of a block before its jump.
ghost use Rattle.std.specs.Prelude.{◌≡◌, is_some};
ghost use Rattle.il_reader.specs.Prelude.{Gives, keyword, store_of, storing, blit, sees_word, operation_of, called, unary_to, binary_to, alloc_to, assigned, assignment, effect, statement, sees_statement};

use crate::arguments::{arguments, phi_arguments};
use crate::fault::Unread;
use crate::kinds::is_temp;
use crate::operand::{destination, value};
use crate::reader::Reader;
use crate::statement::{Operation, Statement};
use crate::words::{is_jump, operation_of, store_of};
use il_ast::{Alignment, BinaryOp, Dest, Inst, Lined, Phi, Size, UnaryOp};
use il_lex::kind::Symbol;

/// Reads the word behind a destination.
fn operation(reader: &mut Reader<'_>) -> Result<Operation, Unread>
    ensures { Gives (keyword operation_of) reader.old reader.new result }
{
    let text = reader.word()?;
    match operation_of(text) {
        Some(operation) => Ok(operation),
        None => Err(Unread::Syntax),
    }
}

/// Reads a call behind its word.
fn called(reader: &mut Reader<'_>, to: Option<Dest>) -> Result<Inst, Unread>
    ensures { Gives (called to) reader.old reader.new result }
{
    let callee = value(reader)?;
    reader.piece(Symbol::LeftParen)?;
    let args = arguments(reader)?;
    reader.piece(Symbol::RightParen)?;
    Ok(Inst::Call { to, callee, args })
}

fn unary_to(reader: &mut Reader<'_>, to: Dest, op: UnaryOp) -> Result<Inst, Unread>
    ensures { Gives (unary_to to op) reader.old reader.new result }
{
    let value = value(reader)?;
    Ok(Inst::Unary { to, op, value })
}

fn binary_to(reader: &mut Reader<'_>, to: Dest, op: BinaryOp) -> Result<Inst, Unread>
    ensures { Gives (binary_to to op) reader.old reader.new result }
{
    let left = value(reader)?;
    reader.piece(Symbol::Comma)?;
    let right = value(reader)?;
    Ok(Inst::Binary {
        to,
        op,
        left,
        right,
    })
}

fn alloc_to(reader: &mut Reader<'_>, to: Dest, alignment: Alignment) -> Result<Inst, Unread>
    ensures { Gives (alloc_to to alignment) reader.old reader.new result }
{
    let size = reader.natural()?;
    Ok(Inst::Alloc {
        to,
        alignment,
        size,
    })
}

/// Reads what stands behind a destination and a word.
fn assigned(
    reader: &mut Reader<'_>,
    line: usize,
    to: Dest,
    operation: Operation,
) -> Result<Statement, Unread>
    ensures { Gives (assigned line to operation) reader.old reader.new result }
{
    let item = match operation {
        Operation::Phi => {
            let args = phi_arguments(reader)?;
            return Ok(Statement::Phi(Phi { line, to, args }));
        }
        Operation::Call => called(reader, Some(to))?,
        Operation::Alloc(alignment) => alloc_to(reader, to, alignment)?,
        Operation::Unary(op) => unary_to(reader, to, op)?,
        Operation::Binary(op) => binary_to(reader, to, op)?,
    };
    Ok(Statement::Inst(Lined { line, item }))
}

/// Reads a line that begins with a destination.
fn assignment(reader: &mut Reader<'_>, line: usize) -> Result<Statement, Unread>
    ensures { Gives (assignment line) reader.old reader.new result }
{
    let to = destination(reader)?;
    let operation = operation(reader)?;
    assigned(reader, line, to, operation)
}

fn store_size(reader: &mut Reader<'_>) -> Result<Size, Unread>
    ensures { Gives (keyword store_of) reader.old reader.new result }
{
    let text = reader.word()?;
    match store_of(text) {
        Some(size) => Ok(size),
        None => Err(Unread::Syntax),
    }
}

fn storing(reader: &mut Reader<'_>) -> Result<Inst, Unread>
    ensures { Gives storing reader.old reader.new result }
{
    let size = store_size(reader)?;
    let stored = value(reader)?;
    reader.piece(Symbol::Comma)?;
    let at = value(reader)?;
    Ok(Inst::Store {
        size,
        value: stored,
        at,
    })
}

fn blit(reader: &mut Reader<'_>) -> Result<Inst, Unread>
    ensures { Gives blit reader.old reader.new result }
{
    reader.keyword(b"blit")?;
    let from = value(reader)?;
    reader.piece(Symbol::Comma)?;
    let to = value(reader)?;
    reader.piece(Symbol::Comma)?;
    let count = reader.natural()?;
    Ok(Inst::Blit { from, to, count })
}

fn sees_store(reader: &Reader<'_>) -> bool
    ensures { result ≡ sees_word (λ text. is_some (store_of text)) reader.now }
{
    match reader.word_ahead() {
        Some(text) => store_of(text).is_some(),
        None => false,
    }
}

/// Reads an instruction without a destination.
fn effect(reader: &mut Reader<'_>) -> Result<Inst, Unread>
    ensures { Gives effect reader.old reader.new result }
{
    if sees_store(reader) {
        return storing(reader);
    }
    if reader.sees_text(b"blit") {
        return blit(reader);
    }
    reader.keyword(b"call")?;
    called(reader, None)
}

/// Reads a line, but not its end.
pub(crate) fn statement(reader: &mut Reader<'_>) -> Result<Statement, Unread>
    ensures { Gives statement reader.old reader.new result }
{
    let line = reader.line();
    if is_temp(reader.ahead()) {
        return assignment(reader, line);
    }
    let item = effect(reader)?;
    Ok(Statement::Inst(Lined { line, item }))
}

/// Whether a line comes next that is no jump.
pub(crate) fn sees_statement(reader: &Reader<'_>) -> bool
    ensures { result ≡ sees_statement reader.now }
{
    if is_temp(reader.ahead()) {
        return true;
    }
    match reader.word_ahead() {
        Some(text) => !is_jump(text),
        None => false,
    }
}
