//! Names and numbers as texts show them.
use il_ast::{Class, Func, InText, Label, Name, Symbol, Temp, Text, Val};
use obj_link::Linked;
use std::{fmt, str};
use text_maker::{TextMaker, say};

/// A name of a text, behind its sign.
#[derive(Clone, Copy)]
pub struct Named<'a> {
    sign: char,
    name: &'a str,
}

impl<'a> Named<'a> {
    /// A global name.
    pub fn global(name: &'a str) -> Named<'a> {
        Named { sign: '$', name }
    }
}

impl fmt::Display for Named<'_> {
    fn fmt<W: fmt::Write>(&self, f: &mut fmt::Formatter<W>) -> fmt::Result {
        let Named { sign, name } = *self;
        write!(f, "{sign}{name}")
    }
}

/// The bytes of a name.
pub fn shown(name: &[u8]) -> &str {
    str::from_utf8(name).unwrap_or("?")
}

/// A name by its number.
fn by_number(sign: char, names: &[Name], number: usize) -> Named<'_> {
    let name = names.get(number).map_or("?", |name| shown(name.as_slice()));
    Named { sign, name }
}

pub fn temp(function: &Func, temp: Temp) -> Named<'_> {
    by_number('%', function.temps.as_slice(), temp.number())
}

pub fn label(function: &Func, label: Label) -> Named<'_> {
    by_number('@', function.labels.as_slice(), label.number())
}

pub fn global(text: &Text, symbol: Symbol) -> Named<'_> {
    by_number('$', text.symbols.as_slice(), symbol.number())
}

/// A global name of the text with this number.
pub fn name_in<'a>(linked: &'a Linked<'_>, text: usize, symbol: Symbol) -> Named<'a> {
    match linked.texts.get(text) {
        Some(checked) => global(&checked.text, symbol),
        None => Named::global("?"),
    }
}

/// Adds an operand as it stands in a function.
pub fn add_operand(
    words: &mut TextMaker,
    linked: &Linked<'_>,
    function: &InText<&Func>,
    operand: Val,
) {
    match operand {
        Val::Int(number) => say!(words; "{number}"),
        Val::Temp(read) => say!(words; "{}", temp(function.item, read)),
        Val::Global(symbol) => say!(words; "{}", name_in(linked, function.text, symbol)),
    }
}

pub fn class_word(class: Class) -> &'static str {
    match class {
        Class::W => "w",
        Class::L => "l",
    }
}

/// What each group of three digits counts, the first one first.
const UNITS: [u64; 7] = [
    1_000_000_000_000_000_000,
    1_000_000_000_000_000,
    1_000_000_000_000,
    1_000_000_000,
    1_000_000,
    1_000,
    1,
];

/// A number, shown with a comma before each three of its digits.
#[derive(Clone, Copy)]
pub struct Count(pub u64);

impl fmt::Display for Count {
    fn fmt<W: fmt::Write>(&self, f: &mut fmt::Formatter<W>) -> fmt::Result {
        let Count(number) = *self;
        let mut begun = false;
        for unit in &UNITS {
            let group = number.checked_div(*unit).unwrap_or(0) % 1000;
            if begun {
                write!(f, ",{group:03}")?;
            } else if group > 0 || *unit == 1 {
                write!(f, "{group}")?;
                begun = true;
            }
        }
        Ok(())
    }
}
