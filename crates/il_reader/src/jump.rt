//! Reading the end of a block.
ghost use Rattle.std.specs.Prelude.{◌≡◌};
ghost use Rattle.il_reader.specs.Prelude.{Gives, goto, branch, returning, jump, lined};

use crate::fault::Unread;
use crate::kinds::is_value;
use crate::operand::value;
use crate::reader::Reader;
use il_ast::{Jump, Lined};
use il_lex::kind::Symbol;

fn goto(reader: &mut Reader<'_>) -> Result<Jump, Unread>
    ensures { Gives goto reader.old reader.new result }
{
    reader.keyword(b"jmp")?;
    let label = reader.label()?;
    Ok(Jump::Goto(label))
}

fn branch(reader: &mut Reader<'_>) -> Result<Jump, Unread>
    ensures { Gives branch reader.old reader.new result }
{
    reader.keyword(b"jnz")?;
    let on = value(reader)?;
    reader.piece(Symbol::Comma)?;
    let nonzero = reader.label()?;
    reader.piece(Symbol::Comma)?;
    let otherwise = reader.label()?;
    Ok(Jump::Branch {
        on,
        nonzero,
        otherwise,
    })
}

fn returning(reader: &mut Reader<'_>) -> Result<Jump, Unread>
    ensures { Gives returning reader.old reader.new result }
{
    reader.keyword(b"ret")?;
    if is_value(reader.ahead()) {
        let value = value(reader)?;
        Ok(Jump::Return(Some(value)))
    } else {
        Ok(Jump::Return(None))
    }
}

fn jump(reader: &mut Reader<'_>) -> Result<Jump, Unread>
    ensures { Gives jump reader.old reader.new result }
{
    if reader.sees_text(b"jmp") {
        return goto(reader);
    }
    if reader.sees_text(b"jnz") {
        return branch(reader);
    }
    if reader.sees_text(b"ret") {
        return returning(reader);
    }
    reader.keyword(b"hlt")?;
    Ok(Jump::Halt)
}

/// Reads a jump with its line.
pub(crate) fn lined_jump(reader: &mut Reader<'_>) -> Result<Lined<Jump>, Unread>
    ensures { Gives (lined jump) reader.old reader.new result }
{
    let line = reader.line();
    let item = jump(reader)?;
    Ok(Lined { line, item })
}
