//! Reading data definitions. Between their tokens the ends of lines are spacing.
ghost use Rattle.std.specs.Prelude.{◌≡◌, None, Some, suc, length, unwrap_or, MatchResult};
ghost use Rattle.il_reader.specs.declared.fault.Unread.TheVariants.{Syntax};
ghost use Rattle.il_reader.specs.Prelude.{Gives, appended, pushed, some, sees, separated, repeated, maybe, piece, keyword, word, natural, integer, string, symbol, commas, size_of, comma, is_comma, is_word, spaced, is_item, is_plus, offset, address, item, items, zeros, field, fields, aligned, alignment, object_head, object};

use crate::fault::Unread;
use crate::kinds::{is_comma, is_item, is_number, is_plus, is_quoted, is_word};
use crate::reader::Reader;
use crate::spacing::newlines;
use crate::words::size_of;
use il_ast::symbol::Symbol as Global;
use il_ast::{DataDef, Field, Item, Seq, Size};
use il_lex::kind::Symbol;

fn spaced_piece(reader: &mut Reader<'_>, mark: Symbol) -> Result<(), Unread>
    ensures { Gives (spaced (piece mark)) reader.old reader.new result }
{
    reader.piece(mark)?;
    newlines(reader)
}

fn spaced_word(reader: &mut Reader<'_>, text: &[u8]) -> Result<(), Unread>
    ensures { Gives (spaced (word text.now)) reader.old reader.new result }
{
    reader.keyword(text)?;
    newlines(reader)
}

fn spaced_natural(reader: &mut Reader<'_>) -> Result<u64, Unread>
    ensures { Gives (spaced natural) reader.old reader.new result }
{
    let number = reader.natural()?;
    newlines(reader)?;
    Ok(number)
}

fn spaced_integer(reader: &mut Reader<'_>) -> Result<u64, Unread>
    ensures { Gives (spaced integer) reader.old reader.new result }
{
    let number = reader.integer()?;
    newlines(reader)?;
    Ok(number)
}

fn spaced_string(reader: &mut Reader<'_>) -> Result<Seq<u8>, Unread>
    ensures { Gives (spaced string) reader.old reader.new result }
{
    let bytes = reader.string()?;
    newlines(reader)?;
    Ok(bytes)
}

fn spaced_symbol(reader: &mut Reader<'_>) -> Result<Global, Unread>
    ensures { Gives (spaced symbol) reader.old reader.new result }
{
    let symbol = reader.symbol()?;
    newlines(reader)?;
    Ok(symbol)
}

fn spaced_size(reader: &mut Reader<'_>) -> Result<Size, Unread>
    ensures { Gives (spaced (keyword size_of)) reader.old reader.new result }
{
    let text = reader.word()?;
    match size_of(text) {
        Some(size) => {
            newlines(reader)?;
            Ok(size)
        }
        None => Err(Unread::Syntax),
    }
}

/// Reads a plus sign and what is added to an address.
fn offset(reader: &mut Reader<'_>) -> Result<u64, Unread>
    ensures { Gives offset reader.old reader.new result }
{
    spaced_piece(reader, Symbol::Plus)?;
    spaced_natural(reader)
}

fn address(reader: &mut Reader<'_>) -> Result<Item, Unread>
    ensures { Gives address reader.old reader.new result }
{
    let symbol = spaced_symbol(reader)?;
    if is_plus(reader.ahead()) {
        let offset = offset(reader)?;
        Ok(Item::Address { symbol, offset })
    } else {
        Ok(Item::Address { symbol, offset: 0 })
    }
}

fn item(reader: &mut Reader<'_>) -> Result<Item, Unread>
    ensures { Gives item reader.old reader.new result }
{
    let ahead = reader.ahead();
    if is_number(ahead) {
        let number = spaced_integer(reader)?;
        Ok(Item::Int(number))
    } else if is_quoted(ahead) {
        let bytes = spaced_string(reader)?;
        Ok(Item::Bytes(bytes))
    } else {
        address(reader)
    }
}

/// Reads an item behind others.
fn push_item(reader: &mut Reader<'_>, items: &mut Seq<Item>) -> Result<(), Unread>
    ensures { MatchResult result
        (λ _. pushed items.old (item reader.old) ≡ Some (items.new, reader.new))
        (λ e. e ≡ Syntax → item reader.old ≡ None) }
{
    let item = item(reader)?;
    items.push(item)?;
    Ok(())
}

/// Reads the items behind the first.
fn more_items(reader: &mut Reader<'_>, items: &mut Seq<Item>) -> Result<(), Unread>
    ensures { MatchResult result
        (λ _. appended items.old (repeated (suc (length reader.old.rest)) (sees is_item) item reader.old) ≡ Some (items.new, reader.new))
        (λ e. e ≡ Syntax → repeated (suc (length reader.old.rest)) (sees is_item) item reader.old ≡ None) }
{
    for _ in 0..reader.rounds() {
        if !is_item(reader.ahead()) {
            return Ok(());
        }
        push_item(reader, items)?;
    }
    Err(Unread::Syntax)
}

/// Reads a list of items.
#[tactic(auto, using(crate::proofs::Rounds::some_pushed))]
fn item_list(reader: &mut Reader<'_>) -> Result<Seq<Item>, Unread>
    ensures { Gives (some (sees is_item) item) reader.old reader.new result }
{
    let mut items = Seq::new(reader.alloc());
    push_item(reader, &mut items)?;
    more_items(reader, &mut items)?;
    Ok(items)
}

/// Reads a size and its items.
fn items(reader: &mut Reader<'_>) -> Result<Field, Unread>
    ensures { Gives items reader.old reader.new result }
{
    let size = spaced_size(reader)?;
    let items = item_list(reader)?;
    Ok(Field::Items { size, items })
}

fn zeros(reader: &mut Reader<'_>) -> Result<Field, Unread>
    ensures { Gives zeros reader.old reader.new result }
{
    spaced_word(reader, b"z")?;
    let count = spaced_natural(reader)?;
    Ok(Field::Zeros(count))
}

fn field(reader: &mut Reader<'_>) -> Result<Field, Unread>
    ensures { Gives field reader.old reader.new result }
{
    if reader.sees_text(b"z") {
        zeros(reader)
    } else {
        items(reader)
    }
}

/// Reads a field behind others.
fn push_field(reader: &mut Reader<'_>, fields: &mut Seq<Field>) -> Result<(), Unread>
    ensures { MatchResult result
        (λ _. pushed fields.old (field reader.old) ≡ Some (fields.new, reader.new))
        (λ e. e ≡ Syntax → field reader.old ≡ None) }
{
    let field = field(reader)?;
    fields.push(field)?;
    Ok(())
}

/// Reads the fields behind the first.
fn more_fields(reader: &mut Reader<'_>, fields: &mut Seq<Field>) -> Result<(), Unread>
    ensures { MatchResult result
        (λ _. appended fields.old (separated (suc (length reader.old.rest)) (sees is_comma) (spaced comma) (sees is_word) field reader.old) ≡ Some (fields.new, reader.new))
        (λ e. e ≡ Syntax → separated (suc (length reader.old.rest)) (sees is_comma) (spaced comma) (sees is_word) field reader.old ≡ None) }
{
    for _ in 0..reader.rounds() {
        if !is_comma(reader.ahead()) {
            return Ok(());
        }
        spaced_piece(reader, Symbol::Comma)?;
        if !is_word(reader.ahead()) {
            return Ok(());
        }
        push_field(reader, fields)?;
    }
    Err(Unread::Syntax)
}

/// Reads a list of fields.
#[tactic(auto, using(crate::proofs::Rounds::commas_pushed))]
fn field_list(reader: &mut Reader<'_>) -> Result<Seq<Field>, Unread>
    ensures { Gives (commas (sees is_comma) (spaced comma) (sees is_word) field) reader.old reader.new result }
{
    let mut fields = Seq::new(reader.alloc());
    push_field(reader, &mut fields)?;
    more_fields(reader, &mut fields)?;
    Ok(fields)
}

/// Reads the fields in braces.
fn fields(reader: &mut Reader<'_>) -> Result<Seq<Field>, Unread>
    ensures { Gives fields reader.old reader.new result }
{
    spaced_piece(reader, Symbol::LeftBrace)?;
    let fields = field_list(reader)?;
    reader.piece(Symbol::RightBrace)?;
    Ok(fields)
}

fn aligned(reader: &mut Reader<'_>) -> Result<u64, Unread>
    ensures { Gives aligned reader.old reader.new result }
{
    spaced_word(reader, b"align")?;
    spaced_natural(reader)
}

fn alignment(reader: &mut Reader<'_>) -> Result<Option<u64>, Unread>
    ensures { Gives alignment reader.old reader.new result }
{
    if is_word(reader.ahead()) {
        let bytes = aligned(reader)?;
        Ok(Some(bytes))
    } else {
        Ok(None)
    }
}

/// Reads what stands before the alignment: the line of the name, and the name.
fn object_head(reader: &mut Reader<'_>) -> Result<(usize, Global), Unread>
    ensures { Gives object_head reader.old reader.new result }
{
    spaced_word(reader, b"data")?;
    let line = reader.line();
    let name = spaced_symbol(reader)?;
    spaced_piece(reader, Symbol::Equals)?;
    Ok((line, name))
}

/// Reads a data definition behind the word that exports it.
pub(crate) fn object(reader: &mut Reader<'_>, exported: bool) -> Result<DataDef, Unread>
    ensures { Gives (object exported) reader.old reader.new result }
{
    let (line, name) = object_head(reader)?;
    let alignment = alignment(reader)?;
    let fields = fields(reader)?;
    Ok(DataDef {
        line,
        exported,
        name,
        alignment: alignment.unwrap_or(8),
        fields,
    })
}
