//! Reading the ends of lines.
ghost use Rattle.std.specs.Prelude.{◌≡◌, None, Some, suc, length, MatchResult};
ghost use Rattle.il_reader.specs.declared.fault.Unread.TheVariants.{Syntax};
ghost use Rattle.il_reader.specs.Prelude.{passed, sees, repeated, newline, is_newline, line_ends, newlines};

use crate::fault::Unread;
use crate::kinds::is_newline;
use crate::reader::Reader;

/// Reads the ends of lines, if any come.
pub(crate) fn newlines(reader: &mut Reader<'_>) -> Result<(), Unread>
    ensures { MatchResult result (λ _. passed (newlines reader.old) ≡ Some reader.new) (λ e. e ≡ Syntax → newlines reader.old ≡ None) }
{
    for _ in 0..reader.rounds() {
        if !is_newline(reader.ahead()) {
            return Ok(());
        }
        reader.newline()?;
    }
    Err(Unread::Syntax)
}

/// Reads the ends of lines, at least one.
pub(crate) fn line_ends(reader: &mut Reader<'_>) -> Result<(), Unread>
    ensures { MatchResult result (λ _. passed (line_ends reader.old) ≡ Some reader.new) (λ e. e ≡ Syntax → line_ends reader.old ≡ None) }
{
    reader.newline()?;
    newlines(reader)
}
