//! Reading texts.
ghost use Rattle.std.specs.Prelude.{◌≡◌, None, Some, suc, length, map, MatchResult};
ghost use Rattle.il_reader.specs.declared.fault.Unread.TheVariants.{Syntax};
ghost use Rattle.il_reader.specs.Prelude.{Gives, appended, pushed, parts_of, definition_list, whole_text, sees, separated, is_newline, is_word, exporting, between, definition, definition_parts, definitions};

use crate::datum::object;
use crate::fault::Unread;
use crate::function::function;
use crate::kinds::{is_newline, is_word};
use crate::reader::Reader;
use crate::spacing::{line_ends, newlines};
use il_ast::{Definition, Seq};

/// Reads the word that exports a definition, if it comes: whether it does.
fn exporting(reader: &mut Reader<'_>) -> Result<bool, Unread>
    ensures { Gives exporting reader.old reader.new result }
{
    if reader.sees_text(b"export") {
        reader.keyword(b"export")?;
        newlines(reader)?;
        Ok(true)
    } else {
        Ok(false)
    }
}

fn definition(reader: &mut Reader<'_>) -> Result<Definition, Unread>
    ensures { MatchResult result
        (λ read. definition reader.old ≡ Some (definition_parts read, reader.new))
        (λ e. e ≡ Syntax → definition reader.old ≡ None) }
{
    let exported = exporting(reader)?;
    if reader.sees_text(b"data") {
        let object = object(reader, exported)?;
        Ok(Definition::Object(object))
    } else {
        let function = function(reader, exported)?;
        Ok(Definition::Function(function))
    }
}

/// Reads a definition behind others.
fn push_definition(reader: &mut Reader<'_>, definitions: &mut Seq<Definition>) -> Result<(), Unread>
    ensures { MatchResult result
        (λ _. pushed (parts_of definitions.old) (definition reader.old) ≡ Some (parts_of definitions.new, reader.new))
        (λ e. e ≡ Syntax → definition reader.old ≡ None) }
{
    let definition = definition(reader)?;
    definitions.push(definition)?;
    Ok(())
}

/// Reads the ends of lines between definitions.
fn between(reader: &mut Reader<'_>) -> Result<(), Unread>
    ensures { Gives between reader.old reader.new result }
{
    line_ends(reader)
}

/// Reads the definitions behind the first.
fn more_definitions(
    reader: &mut Reader<'_>,
    definitions: &mut Seq<Definition>,
) -> Result<(), Unread>
    ensures { MatchResult result
        (λ _. appended (parts_of definitions.old) (separated (suc (length reader.old.rest)) (sees is_newline) between (sees is_word) definition reader.old) ≡ Some (parts_of definitions.new, reader.new))
        (λ e. e ≡ Syntax → separated (suc (length reader.old.rest)) (sees is_newline) between (sees is_word) definition reader.old ≡ None) }
{
    for _ in 0..reader.rounds() {
        if !is_newline(reader.ahead()) {
            return Ok(());
        }
        between(reader)?;
        if !is_word(reader.ahead()) {
            return Ok(());
        }
        push_definition(reader, definitions)?;
    }
    Err(Unread::Syntax)
}

/// Reads the definitions behind the ends of lines, which may be none.
fn definition_list(reader: &mut Reader<'_>) -> Result<Seq<Definition>, Unread>
    ensures { MatchResult result
        (λ read. definition_list reader.old ≡ Some (parts_of read, reader.new))
        (λ e. e ≡ Syntax → definition_list reader.old ≡ None) }
{
    let mut definitions = Seq::new(reader.alloc());
    if !is_word(reader.ahead()) {
        return Ok(definitions);
    }
    push_definition(reader, &mut definitions)?;
    more_definitions(reader, &mut definitions)?;
    Ok(definitions)
}

/// Reads the definitions of a text.
fn definitions(reader: &mut Reader<'_>) -> Result<Seq<Definition>, Unread>
    ensures { MatchResult result
        (λ read. definitions reader.old ≡ Some (parts_of read, reader.new))
        (λ e. e ≡ Syntax → definitions reader.old ≡ None) }
{
    newlines(reader)?;
    definition_list(reader)
}

/// Reads the definitions of a text up to its end.
pub(crate) fn whole_text(reader: &mut Reader<'_>) -> Result<Seq<Definition>, Unread>
    ensures { MatchResult result
        (λ read. whole_text reader.old ≡ Some (parts_of read, reader.new))
        (λ e. e ≡ Syntax → whole_text reader.old ≡ None) }
{
    let definitions = definitions(reader)?;
    reader.finish()?;
    Ok(definitions)
}
