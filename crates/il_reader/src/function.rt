//! Reading functions.
ghost use Rattle.std.specs.Prelude.{◌≡◌, None, Some, suc, length, MatchResult};
ghost use Rattle.il_reader.specs.declared.fault.Unread.TheVariants.{Syntax};
ghost use Rattle.il_reader.specs.Prelude.{Gives, appended, pushed, fell, next_fallen, fallen, falling_blocks, jump_to, sees, separated, repeated, maybe, piece, on_line, class, comma, is_comma, is_label, is_word, block, parameter, parameters, function_head, function_params, function_body, function, function_parts};

use crate::block::block;
use crate::fault::Unread;
use crate::kinds::{is_comma, is_label, is_word};
use crate::operand::class;
use crate::reader::Reader;
use crate::spacing::{line_ends, newlines};
use il_ast::symbol::Symbol as Global;
use il_ast::{Block, Class, Func, Jump, Lined, Param, Seq};
use il_lex::kind::Symbol;

/// Reads a class and a temporary behind others.
fn push_parameter(reader: &mut Reader<'_>, params: &mut Seq<Param>) -> Result<(), Unread>
    ensures { MatchResult result
        (λ _. pushed params.old (parameter reader.old) ≡ Some (params.new, reader.new))
        (λ e. e ≡ Syntax → parameter reader.old ≡ None) }
{
    let line = reader.line();
    let class = class(reader)?;
    let temp = reader.temp()?;
    params.push(Param { line, temp, class })?;
    Ok(())
}

/// Reads the parameters behind the first.
fn more_parameters(reader: &mut Reader<'_>, params: &mut Seq<Param>) -> Result<(), Unread>
    ensures { MatchResult result
        (λ _. appended params.old (separated (suc (length reader.old.rest)) (sees is_comma) comma (sees is_word) parameter reader.old) ≡ Some (params.new, reader.new))
        (λ e. e ≡ Syntax → separated (suc (length reader.old.rest)) (sees is_comma) comma (sees is_word) parameter reader.old ≡ None) }
{
    for _ in 0..reader.rounds() {
        if !is_comma(reader.ahead()) {
            return Ok(());
        }
        reader.piece(Symbol::Comma)?;
        if !is_word(reader.ahead()) {
            return Ok(());
        }
        push_parameter(reader, params)?;
    }
    Err(Unread::Syntax)
}

/// Reads the parameters, which may be none.
#[tactic(auto, using(crate::proofs::Rounds::commas_pushed))]
fn parameters(reader: &mut Reader<'_>) -> Result<Seq<Param>, Unread>
    ensures { Gives parameters reader.old reader.new result }
{
    let mut params = Seq::new(reader.alloc());
    if is_word(reader.ahead()) {
        push_parameter(reader, &mut params)?;
        more_parameters(reader, &mut params)?;
    }
    Ok(params)
}

/// Reads the parameters in parentheses, and the ends of lines behind them.
fn function_params(reader: &mut Reader<'_>) -> Result<Seq<Param>, Unread>
    ensures { Gives function_params reader.old reader.new result }
{
    reader.piece(Symbol::LeftParen)?;
    let params = parameters(reader)?;
    reader.piece(Symbol::RightParen)?;
    newlines(reader)?;
    Ok(params)
}

/// What stands before a function's parameters.
#[derive(Clone, Copy)]
struct Head {
    result: Option<Class>,
    /// the line of the name
    line: usize,
    name: Global,
}

fn optional_class(reader: &mut Reader<'_>) -> Result<Option<Class>, Unread>
    ensures { Gives (maybe (sees is_word) class) reader.old reader.new result }
{
    if is_word(reader.ahead()) {
        let class = class(reader)?;
        Ok(Some(class))
    } else {
        Ok(None)
    }
}

/// Reads what stands before a function's parameters. The function has no names yet.
fn function_head(reader: &mut Reader<'_>) -> Result<Head, Unread>
    ensures { MatchResult result
        (λ head. function_head reader.old ≡ Some ((head.result, (head.line, head.name)), reader.new))
        (λ e. e ≡ Syntax → function_head reader.old ≡ None) }
{
    reader.keyword(b"function")?;
    reader.forget_names();
    let result = optional_class(reader)?;
    let line = reader.line();
    let name = reader.symbol()?;
    Ok(Head { result, line, name })
}

/// The jump of a block before another: its own, or one to that block.
fn jump_to(next: &Block, jump: Option<Lined<Jump>>) -> Lined<Jump>
    ensures { result ≡ jump_to next.now jump }
{
    match jump {
        Some(jump) => jump,
        None => Lined {
            line: next.line,
            item: Jump::Goto(next.label),
        },
    }
}

/// A block before the next one, to which it goes where it has no jump.
fn fell(block: Block, next: &Block) -> Block
    ensures { result ≡ fell block next.now }
{
    let Block {
        line,
        label,
        phis,
        insts,
        jump,
    } = block;
    Block {
        line,
        label,
        phis,
        insts,
        jump: Some(jump_to(next, jump)),
    }
}

/// Reads the next block, and puts the one before it behind the others.
fn next_block(
    reader: &mut Reader<'_>,
    blocks: &mut Seq<Block>,
    last: Block,
) -> Result<Block, Unread>
    ensures { MatchResult result
        (λ next. next_fallen blocks.old last (block reader.old) ≡ Some ((blocks.new, next), reader.new))
        (λ e. e ≡ Syntax → block reader.old ≡ None) }
{
    let next = block(reader)?;
    blocks.push(fell(last, &next))?;
    Ok(next)
}

/// Reads the blocks behind the first, and puts them all behind the others.
fn more_blocks(reader: &mut Reader<'_>, blocks: &mut Seq<Block>, first: Block) -> Result<(), Unread>
    ensures { MatchResult result
        (λ _. fallen blocks.old first (repeated (suc (length reader.old.rest)) (sees is_label) block reader.old) ≡ Some (blocks.new, reader.new))
        (λ e. e ≡ Syntax → repeated (suc (length reader.old.rest)) (sees is_label) block reader.old ≡ None) }
{
    let mut last = first;
    for _ in 0..reader.rounds() {
        if !is_label(reader.ahead()) {
            blocks.push(last)?;
            return Ok(());
        }
        last = next_block(reader, blocks, last)?;
    }
    Err(Unread::Syntax)
}

/// Reads blocks, of which one without a jump goes to the next.
fn falling_blocks(reader: &mut Reader<'_>) -> Result<Seq<Block>, Unread>
    ensures { Gives falling_blocks reader.old reader.new result }
{
    let first = block(reader)?;
    let mut blocks = Seq::new(reader.alloc());
    more_blocks(reader, &mut blocks, first)?;
    Ok(blocks)
}

/// Reads an opening brace on its line.
fn brace_line(reader: &mut Reader<'_>) -> Result<(), Unread>
    ensures { Gives (on_line (piece Symbol.LeftBrace)) reader.old reader.new result }
{
    reader.piece(Symbol::LeftBrace)?;
    line_ends(reader)
}

/// Reads the blocks in braces.
fn function_body(reader: &mut Reader<'_>) -> Result<Seq<Block>, Unread>
    ensures { Gives function_body reader.old reader.new result }
{
    brace_line(reader)?;
    let blocks = falling_blocks(reader)?;
    reader.piece(Symbol::RightBrace)?;
    Ok(blocks)
}

/// Reads a function behind the word that exports it.
pub(crate) fn function(reader: &mut Reader<'_>, exported: bool) -> Result<Func, Unread>
    ensures { MatchResult result
        (λ read. function exported reader.old ≡ Some (function_parts read, reader.new))
        (λ e. e ≡ Syntax → function exported reader.old ≡ None) }
{
    let Head { result, line, name } = function_head(reader)?;
    let params = function_params(reader)?;
    let blocks = function_body(reader)?;
    let temps = reader.temps()?;
    let labels = reader.labels()?;
    Ok(Func {
        line,
        exported,
        name,
        result,
        params,
        blocks,
        temps,
        labels,
    })
}
