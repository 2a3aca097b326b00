//! Names and what they stand for.
ghost use Rattle.std.specs.Prelude.{◌≡◌};
ghost use Rattle.obj_link.specs.Prelude.{symbol_name};

use il_ast::symbol::Symbol as SymbolNumber;
use il_types::Checked;

/// What a name stands for.
#[derive(Clone, Copy, PartialEq, Eq)]
pub enum Kind {
    Function,
    Object,
}

/// A name that a text defines, with what stands at its address in an executable.
#[derive(Clone, Copy)]
pub struct Symbol<'a> {
    pub address: u64,
    /// in bytes
    pub size: u64,
    pub kind: Kind,
    pub is_exported: bool,
    pub name: &'a [u8],
}

/// The name of a symbol of a text.
pub fn name_in<'a>(texts: &'a [Checked], text: usize, symbol: SymbolNumber) -> &'a [u8]
    ensures { result.now ≡ symbol_name texts.now text symbol }
{
    match texts.get(text) {
        Some(checked) => match checked.text.symbols.as_slice().get(symbol.number()) {
            Some(name) => name.as_slice(),
            None => &[],
        },
        None => &[],
    }
}
