//! Reading the tree of a text.
ghost use Rattle.std.specs.Prelude.{◌≡◌, ◌≤◌, length, IfOk, IfErr};
ghost use Rattle.il_lex.specs.Next.{lines_in, line_at};
ghost use Rattle.il_ast.specs.declared.text.Text.{Text};
ghost use Rattle.il_reader.specs.Prelude.{start, Reads, IsTree, NamesLine, IsFound};

use crate::error::ReadError;
use crate::fault::Unread;
use crate::reader::Reader;
use crate::text::whole_text;
use il_ast::Text;
use std::alloc::Global;

/// Reads a text of the language to its tree.
///
/// `ReadError::Syntax` says that the text is not in the grammar, and names the line of the token, or of
/// what is no token, at which the reading stopped. `ReadError::Memory` says that memory was refused.
pub fn read(alloc: Global, text: &[u8]) -> Result<Text, ReadError>
    ensures found { IfOk result (λ tree. Reads text.now tree) }
    ensures only { (tree : Text) → Reads text.now tree → IsTree tree result }
    ensures line { IfErr result (NamesLine text.now) }
{
    let mut left = 0;
    match found_in(alloc, text, &mut left) {
        Ok(tree) => Ok(tree),
        Err(Unread::Memory) => Err(ReadError::Memory),
        Err(Unread::Syntax) => {
            let at = text.len().saturating_sub(left);
            let line = line_at(text, at);
            Err(ReadError::Syntax { line })
        }
    }
}

/// Where the reading of a text that isn't in the grammar stops: how many bytes stand before the token, or
/// what is no token, that it stops at.
pub fn stop(alloc: Global, text: &[u8]) -> usize
    ensures { result ≤ length text.now }
{
    let mut left = 0;
    match found_in(alloc, text, &mut left) {
        Ok(_) => text.len(),
        Err(_) => text.len().saturating_sub(left),
    }
}

/// Reads a text, and sets `left` to how many bytes were left before the token at which the reading stopped.
fn found_in(alloc: Global, text: &[u8], left: &mut usize) -> Result<Text, Unread>
    ensures { IsFound text.now result }
{
    let mut reader = Reader::new(alloc, text);
    let found = tree(&mut reader, text);
    *left = reader.left_before();
    drop(reader);
    found
}

/// Reads a text from its start.
fn tree(reader: &mut Reader<'_>, text: &[u8]) -> Result<Text, Unread>
    requires { reader.old ≡ start text.now }
    ensures { IsFound text.now result }
{
    let definitions = whole_text(reader)?;
    let symbols = reader.symbols()?;
    Ok(Text {
        definitions,
        symbols,
        lines: line_at(text, text.len()),
        bytes: text.len(),
    })
}

/// The line of the place behind the first `at` bytes of a text, from 1.
fn line_at(text: &[u8], at: usize) -> usize
    requires { at ≤ length text.now }
    ensures { result ≡ line_at text.now at }
{
    line_feeds(&text[..at]) + 1
}

/// How many of the bytes end a line.
fn line_feeds(bytes: &[u8]) -> usize
    ensures value { result ≡ lines_in bytes.now }
    ensures bound { result ≤ length bytes.now }
{
    let mut count = 0;
    for byte in bytes {
        if *byte == b'\n' {
            count += 1;
        }
    }
    count
}
