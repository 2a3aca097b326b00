//! What stands next, and what a token is.
ghost use Rattle.std.specs.Prelude.{◌≡◌, Some, drop, option_copied, option_map};
ghost use Rattle.il_lex.specs.Scan.{string_bytes};
ghost use Rattle.il_reader.specs.Prelude.{kind_is, newline_test, piece_test, natural_test, integer_test, temp_test, label_test, symbol_test, string_test, word_test, is_number, is_temp, is_value, is_comma, is_word, is_label, is_newline, is_quoted, is_plus, is_item};

use il_lex::kind::{Kind, Symbol};
use il_lex::scan::Ahead;

/// Whether the end of a line comes next.
pub(crate) fn is_newline(ahead: Ahead) -> bool
    ensures { result ≡ kind_is is_newline ahead }
{
    match ahead {
        Ahead::Found { kind, .. } => matches!(kind, Kind::Newline),
        _ => false,
    }
}

/// Whether a comma comes next.
pub(crate) fn is_comma(ahead: Ahead) -> bool
    ensures { result ≡ kind_is is_comma ahead }
{
    match ahead {
        Ahead::Found { kind, .. } => matches!(kind, Kind::Symbol(Symbol::Comma)),
        _ => false,
    }
}

/// Whether a word comes next.
pub(crate) fn is_word(ahead: Ahead) -> bool
    ensures { result ≡ kind_is is_word ahead }
{
    match ahead {
        Ahead::Found { kind, .. } => matches!(kind, Kind::Word),
        _ => false,
    }
}

/// Whether a label comes next.
pub(crate) fn is_label(ahead: Ahead) -> bool
    ensures { result ≡ kind_is is_label ahead }
{
    match ahead {
        Ahead::Found { kind, .. } => matches!(kind, Kind::Label),
        _ => false,
    }
}

/// Whether a temporary comes next.
pub(crate) fn is_temp(ahead: Ahead) -> bool
    ensures { result ≡ kind_is is_temp ahead }
{
    match ahead {
        Ahead::Found { kind, .. } => matches!(kind, Kind::Temp),
        _ => false,
    }
}

/// Whether a number comes next.
pub(crate) fn is_number(ahead: Ahead) -> bool
    ensures { result ≡ kind_is is_number ahead }
{
    match ahead {
        Ahead::Found { kind, .. } => matches!(kind, Kind::Natural(_) | Kind::Negative(_)),
        _ => false,
    }
}

/// Whether a value comes next.
pub(crate) fn is_value(ahead: Ahead) -> bool
    ensures { result ≡ kind_is is_value ahead }
{
    match ahead {
        Ahead::Found { kind, .. } => matches!(
            kind,
            Kind::Natural(_) | Kind::Negative(_) | Kind::Temp | Kind::Global
        ),
        _ => false,
    }
}

/// Whether a string comes next.
pub(crate) fn is_quoted(ahead: Ahead) -> bool
    ensures { result ≡ kind_is is_quoted ahead }
{
    match ahead {
        Ahead::Found { kind, .. } => matches!(kind, Kind::Quoted),
        _ => false,
    }
}

/// Whether a plus sign comes next.
pub(crate) fn is_plus(ahead: Ahead) -> bool
    ensures { result ≡ kind_is is_plus ahead }
{
    match ahead {
        Ahead::Found { kind, .. } => matches!(kind, Kind::Symbol(Symbol::Plus)),
        _ => false,
    }
}

/// Whether an item of data comes next.
pub(crate) fn is_item(ahead: Ahead) -> bool
    ensures { result ≡ kind_is is_item ahead }
{
    match ahead {
        Ahead::Found { kind, .. } => matches!(
            kind,
            Kind::Natural(_) | Kind::Negative(_) | Kind::Global | Kind::Quoted
        ),
        _ => false,
    }
}

pub(crate) fn newline_test(kind: Kind, text: &[u8]) -> Option<()>
    ensures { result ≡ newline_test kind text.now }
{
    match kind {
        Kind::Newline => Some(()),
        _ => None,
    }
}

pub(crate) fn piece_test(mark: Symbol, kind: Kind, text: &[u8]) -> Option<()>
    ensures { result ≡ piece_test mark kind text.now }
{
    match kind {
        Kind::Symbol(symbol) => if symbol == mark { Some(()) } else { None },
        _ => None,
    }
}

/// The number that a token without a minus sign is.
pub(crate) fn natural_test(kind: Kind, text: &[u8]) -> Option<u64>
    ensures { result ≡ natural_test kind text.now }
{
    match kind {
        Kind::Natural(number) => Some(number),
        _ => None,
    }
}

/// The number that a token is, modulo 2^64.
pub(crate) fn integer_test(kind: Kind, text: &[u8]) -> Option<u64>
    ensures { result ≡ integer_test kind text.now }
{
    match kind {
        Kind::Natural(number) => Some(number),
        Kind::Negative(number) => Some(number),
        _ => None,
    }
}

/// The name of a temporary.
pub(crate) fn temp_test<'a>(kind: Kind, text: &'a [u8]) -> Option<&'a [u8]>
    ensures { option_copied result ≡ temp_test kind text.now }
{
    match kind {
        Kind::Temp => Some(without_sigil(text)),
        _ => None,
    }
}

/// The name of a label.
pub(crate) fn label_test<'a>(kind: Kind, text: &'a [u8]) -> Option<&'a [u8]>
    ensures { option_copied result ≡ label_test kind text.now }
{
    match kind {
        Kind::Label => Some(without_sigil(text)),
        _ => None,
    }
}

/// The name of a global.
pub(crate) fn symbol_test<'a>(kind: Kind, text: &'a [u8]) -> Option<&'a [u8]>
    ensures { option_copied result ≡ symbol_test kind text.now }
{
    match kind {
        Kind::Global => Some(without_sigil(text)),
        _ => None,
    }
}

/// All but the first byte.
fn without_sigil(text: &[u8]) -> &[u8]
    ensures { result.now ≡ drop 1 text.now }
{
    match text.split_first() {
        Some((_, name)) => name,
        None => text,
    }
}

/// The text of a word.
pub(crate) fn word_test<'a>(kind: Kind, text: &'a [u8]) -> Option<&'a [u8]>
    ensures { option_copied result ≡ word_test Some kind text.now }
{
    match kind {
        Kind::Word => Some(text),
        _ => None,
    }
}

/// The text of a string, with its quotes.
pub(crate) fn string_test<'a>(kind: Kind, text: &'a [u8]) -> Option<&'a [u8]>
    ensures { option_map string_bytes (option_copied result) ≡ string_test kind text.now }
{
    match kind {
        Kind::Quoted => Some(text),
        _ => None,
    }
}
