//! Reading the lists of arguments.
ghost use Rattle.std.specs.Prelude.{◌≡◌, None, Some, suc, length, MatchResult};
ghost use Rattle.il_reader.specs.declared.fault.Unread.TheVariants.{Syntax};
ghost use Rattle.il_reader.specs.Prelude.{Gives, appended, sees, separated, commas, argument, phi_argument, arguments, comma, is_comma, is_word, is_label};

use crate::fault::Unread;
use crate::kinds::{is_comma, is_label, is_word};
use crate::operand::{push_argument, push_phi_argument};
use crate::reader::Reader;
use il_ast::{Arg, Few, PhiArg};
use il_lex::kind::Symbol;

/// Reads the arguments of a call behind the first.
fn more_arguments(reader: &mut Reader<'_>, args: &mut Few<Arg>) -> Result<(), Unread>
    ensures { MatchResult result
        (λ _. appended args.old (separated (suc (length reader.old.rest)) (sees is_comma) comma (sees is_word) argument reader.old) ≡ Some (args.new, reader.new))
        (λ e. e ≡ Syntax → separated (suc (length reader.old.rest)) (sees is_comma) comma (sees is_word) argument reader.old ≡ None) }
{
    for _ in 0..reader.rounds() {
        if !is_comma(reader.ahead()) {
            return Ok(());
        }
        reader.piece(Symbol::Comma)?;
        if !is_word(reader.ahead()) {
            return Ok(());
        }
        push_argument(reader, args)?;
    }
    Err(Unread::Syntax)
}

/// Reads the arguments of a call, which may be none.
pub(crate) fn arguments(reader: &mut Reader<'_>) -> Result<Few<Arg>, Unread>
    ensures { Gives arguments reader.old reader.new result }
{
    let mut args = Few::new(reader.alloc());
    if is_word(reader.ahead()) {
        push_argument(reader, &mut args)?;
        more_arguments(reader, &mut args)?;
    }
    Ok(args)
}

/// Reads the arguments of a phi behind the first.
fn more_phi_arguments(reader: &mut Reader<'_>, args: &mut Few<PhiArg>) -> Result<(), Unread>
    ensures { MatchResult result
        (λ _. appended args.old (separated (suc (length reader.old.rest)) (sees is_comma) comma (sees is_label) phi_argument reader.old) ≡ Some (args.new, reader.new))
        (λ e. e ≡ Syntax → separated (suc (length reader.old.rest)) (sees is_comma) comma (sees is_label) phi_argument reader.old ≡ None) }
{
    for _ in 0..reader.rounds() {
        if !is_comma(reader.ahead()) {
            return Ok(());
        }
        reader.piece(Symbol::Comma)?;
        if !is_label(reader.ahead()) {
            return Ok(());
        }
        push_phi_argument(reader, args)?;
    }
    Err(Unread::Syntax)
}

/// Reads the arguments of a phi.
pub(crate) fn phi_arguments(reader: &mut Reader<'_>) -> Result<Few<PhiArg>, Unread>
    ensures { Gives (commas (sees is_comma) comma (sees is_label) phi_argument) reader.old reader.new result }
{
    let mut args = Few::new(reader.alloc());
    push_phi_argument(reader, &mut args)?;
    more_phi_arguments(reader, &mut args)?;
    Ok(args)
}
