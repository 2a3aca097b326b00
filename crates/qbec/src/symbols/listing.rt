//! The symbols of texts as lines, in the form in which `nm -S` prints them.
ghost use Rattle.std.specs.Prelude.{◌≡◌, ◌++◌, map, IfOk, IfErr, OnOk, MatchResult};
ghost use Rattle.std.specs.List.{concat};
ghost use Rattle.il_ast.specs.declared.program.Program.{Program};
ghost use Rattle.obj_link.specs.Prelude.{IsProgram, program};
ghost use Rattle.qbec.specs.declared.error.CompileError.TheVariants.{Memory};
ghost use Rattle.qbec.specs.Pipeline.{AreGood, AreWords};
ghost use Rattle.qbec.specs.Refusals.{Refuses, AreProgram};
ghost use Rattle.qbec.specs.Symbols.{IsFileListed, IsListedFile, letter, listing_of, symbol_line, entry};

use crate::codes::codes_of;
use crate::compile::file_of;
use crate::error::{CompileError, link_refusal};
use crate::symbols::symbol::{Kind, Symbol};
use crate::symbols::table::symbols;
use crate::texts::checked_texts;
use certificates::Strategy;
use obj_link::Linked;
use obj_link::linking::resolve::resolve;
use rv_isa::MachineCode;
use shell::digits::sixteen_digits;
use std::alloc::{AllocError, Global};

/// The letter of what a name stands for: `T` for a function and `D` for a datum, in lower case where it isn't exported.
fn letter(kind: Kind, is_exported: bool) -> u8
    ensures { result ≡ letter kind is_exported }
{
    match kind {
        Kind::Function if is_exported => b'T',
        Kind::Function => b't',
        Kind::Object if is_exported => b'D',
        Kind::Object => b'd',
    }
}

/// Adds the line of a symbol.
fn push_line(listing: &mut Vec<u8>, symbol: &Symbol<'_>) -> Result<(), AllocError>
    ensures { OnOk result (listing.new.items ≡ listing.old.items ++ symbol_line (entry symbol.now)) }
{
    listing.extend_from_slice(&sixteen_digits(symbol.address))?;
    listing.extend_from_slice(b" ")?;
    listing.extend_from_slice(&sixteen_digits(symbol.size))?;
    listing.extend_from_slice(&[b' ', letter(symbol.kind, symbol.is_exported), b' '])?;
    listing.extend_from_slice(symbol.name)?;
    listing.extend_from_slice(b"\n")
}

/// The lines of symbols, one after another.
fn lines_of(alloc: Global, symbols: &[Symbol<'_>]) -> Result<Vec<u8>, AllocError>
    ensures { IfOk result (λ v. v.items ≡ concat (map (λ s. symbol_line (entry s)) symbols.now)) }
{
    let mut listing = Vec::new(alloc);
    for symbol in symbols {
        push_line(&mut listing, symbol)?;
    }
    Ok(listing)
}

/// The lines of the symbols of a program whose functions have these words.
fn listing_of(
    alloc: Global,
    linked: &Linked<'_>,
    codes: &[MachineCode],
) -> Result<Vec<u8>, AllocError>
    requires program { IsProgram linked.now.texts.now (program linked.now) }
    requires words { AreWords codes.now (program linked.now) }
    ensures { IfOk result (λ v. v.items ≡ listing_of linked.now.texts.now (program linked.now) codes.now) }
{
    let found = symbols(alloc, linked, codes)?;
    lines_of(alloc, found.as_slice())
}

/// An executable file, and the lines of the names in it.
#[derive(Drop)]
pub struct ListedFile {
    pub file: Vec<u8>,
    pub listing: Vec<u8>,
}

/// The file of a program, and its lines, with the same words for each function.
fn listed(
    alloc: Global,
    linked: &Linked<'_>,
    allocator: &mut dyn Strategy,
) -> Result<ListedFile, CompileError>
    requires program { IsProgram linked.now.texts.now (program linked.now) }
    requires good { AreGood linked.now.functions }
    ensures { MatchResult result (λ l. IsFileListed linked.now.texts.now (program linked.now) l.file.items l.listing.items) (λ e. e ≡ Memory) }
{
    let codes = codes_of(alloc, linked, allocator)?;
    let words = codes.as_slice();
    let file = file_of(alloc, linked, words)?;
    let listing = listing_of(alloc, linked, words)?;
    Ok(ListedFile { file, listing })
}

/// Compiles texts as [`crate::compile::compile`] does, and says where their names stand in the file that this makes: a line for each function, and behind them one for
/// each datum, in the order of addresses.
///
/// A line has the address and the size, each as sixteen hexadecimal digits, the letter of what stands there, and the name without its `$`. `nm -S` prints such lines of
/// other executables. Sizes are in bytes; that of a datum leaves out the zeros behind it.
///
/// # Errors
///
/// Those of [`crate::compile::compile`], for the same texts.
pub fn listed_file(
    alloc: Global,
    texts: &[&[u8]],
    allocator: &mut dyn Strategy,
) -> Result<ListedFile, CompileError>
    ensures listed { IfOk result (λ l. IsListedFile (map (λ t. t.now) texts.now) l.file.items l.listing.items) }
    ensures refused { IfErr result (λ e. Refuses e (map (λ t. t.now) texts.now)) }
    ensures only { (p : Program) → AreProgram (map (λ t. t.now) texts.now) p → IfErr result (λ e. e ≡ Memory) }
{
    match checked_texts(alloc, texts) {
        Ok(checked) => match resolve(alloc, checked.as_slice()) {
            Ok(linked) => listed(alloc, &linked, allocator),
            Err(error) => Err(link_refusal(alloc, error)),
        },
        Err(error) => Err(error),
    }
}
