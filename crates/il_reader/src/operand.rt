//! Reading operands and destinations.
ghost use Rattle.std.specs.Prelude.{◌≡◌, None, Some, MatchResult};
ghost use Rattle.il_reader.specs.declared.fault.Unread.TheVariants.{Syntax};
ghost use Rattle.il_reader.specs.Prelude.{Gives, pushed, class, value, destination, argument, phi_argument};

use crate::fault::Unread;
use crate::kinds::{is_number, is_temp};
use crate::reader::Reader;
use crate::words::class_of;
use il_ast::{Arg, Class, Dest, Few, PhiArg, Val};
use il_lex::kind::Symbol;

/// Reads a class.
pub(crate) fn class(reader: &mut Reader<'_>) -> Result<Class, Unread>
    ensures { Gives class reader.old reader.new result }
{
    let text = reader.word()?;
    match class_of(text) {
        Some(class) => Ok(class),
        None => Err(Unread::Syntax),
    }
}

/// Reads a temporary, `=` and a class.
pub(crate) fn destination(reader: &mut Reader<'_>) -> Result<Dest, Unread>
    ensures { Gives destination reader.old reader.new result }
{
    let temp = reader.temp()?;
    reader.piece(Symbol::Equals)?;
    let class = class(reader)?;
    Ok(Dest { temp, class })
}

/// Reads a number, a temporary or a global name.
pub(crate) fn value(reader: &mut Reader<'_>) -> Result<Val, Unread>
    ensures { Gives value reader.old reader.new result }
{
    let ahead = reader.ahead();
    if is_number(ahead) {
        let number = reader.integer()?;
        Ok(Val::Int(number))
    } else if is_temp(ahead) {
        let temp = reader.temp()?;
        Ok(Val::Temp(temp))
    } else {
        let symbol = reader.symbol()?;
        Ok(Val::Global(symbol))
    }
}

/// Reads a class and a value behind others.
pub(crate) fn push_argument(reader: &mut Reader<'_>, args: &mut Few<Arg>) -> Result<(), Unread>
    ensures { MatchResult result
        (λ _. pushed args.old (argument reader.old) ≡ Some (args.new, reader.new))
        (λ e. e ≡ Syntax → argument reader.old ≡ None) }
{
    let class = class(reader)?;
    let value = value(reader)?;
    args.push(Arg { class, value })?;
    Ok(())
}

/// Reads a label and a value behind others.
pub(crate) fn push_phi_argument(
    reader: &mut Reader<'_>,
    args: &mut Few<PhiArg>,
) -> Result<(), Unread>
    ensures { MatchResult result
        (λ _. pushed args.old (phi_argument reader.old) ≡ Some (args.new, reader.new))
        (λ e. e ≡ Syntax → phi_argument reader.old ≡ None) }
{
    let from = reader.label()?;
    let value = value(reader)?;
    args.push(PhiArg { from, value })?;
    Ok(())
}
