//! Where the reading of a text stands.
ghost use Rattle.std.specs.Prelude.{◌≡◌, Some, None, MatchResult};
ghost use Rattle.il_lex.specs.Next.{line_ends};
ghost use Rattle.il_reader.specs.declared.fault.Unread.TheVariants.{Syntax};

use crate::fault::Unread;
use crate::kinds::{
    integer_test, label_test, natural_test, newline_test, piece_test, string_test, symbol_test,
    temp_test, word_test,
};
use crate::names::Names;
use crate::words::is_text;
use il_ast::symbol::Symbol as Global;
use il_ast::{Label, Name, Seq, Temp};
use il_lex::kind::{Kind, Symbol};
use il_lex::quoted::string_bytes;
use il_lex::scan::{Ahead, scan};
use std::alloc;
use std::alloc::AllocError;
use std::marker::Model;

/// Reads a text from its front to its end. A clause sees the bytes that are left, their line, and the
/// names that have appeared.
#[derive(Drop)]
pub(crate) struct Reader<'a> {
    alloc: alloc::Global,
    rest: &'a [u8],
    /// the token at the front of `rest`
    ahead: Ahead,
    /// the line of `rest`, from 1
    line: usize,
    /// how many bytes were left before the token that was read last
    left_before: usize,
    temps: Names<'a>,
    labels: Names<'a>,
    symbols: Names<'a>,
}

impl<'a> Model for Reader<'a> {
    ghost use Rattle.std.specs.Prelude.{◌≡◌, ◌+◌, ◌<◌, ◌≤◌, ◌^◌, length};
    ghost use Rattle.il_lex.specs.Scan.{scan};
    ghost use Rattle.il_reader.specs.State.{State};

    ghost Value = { State };

    ghost view = { λ r. record { rest = r.rest.now; line = r.line; temps = r.temps; labels = r.labels; symbols = r.symbols } };

    ghost invariant = { λ r. (r.ahead ≡ scan r.rest.now) × (r.line + length r.rest.now < 2 ^ 64) };
}

fn line_ends(kind: Kind) -> usize
    ensures { result ≡ line_ends kind }
{
    match kind {
        Kind::Newline => 1,
        _ => 0,
    }
}

impl<'a> Reader<'a> {
    ghost use Rattle.std.specs.Prelude.{◌≡◌, suc, ℕ, Bool, true, false, List, [], length, IfOk};
    ghost use Rattle.std.specs.Option.{option_copied, option_map_or};
    ghost use Rattle.il_lex.specs.Scan.{scan};
    ghost use Rattle.il_reader.specs.State.{start};
    ghost use Rattle.il_reader.specs.Reading.{sees_word, is_text};
    ghost use Rattle.il_reader.specs.Definitions.{is_end};
    ghost use Rattle.il_reader.specs.Gives.{Gives, GivesText};
    ghost use Rattle.il_reader.specs.Steps.{next, newline, piece, natural, integer, string, keyword, word as the_word, temp, label, symbol};

    /// The start of a text.
    pub(crate) fn new(alloc: alloc::Global, text: &'a [u8]) -> Reader<'a>
        ensures { result ≡ start text.now }
    {
        Reader {
            alloc,
            rest: text,
            ahead: scan(text),
            line: 1,
            left_before: text.len(),
            temps: Names::new(alloc),
            labels: Names::new(alloc),
            symbols: Names::new(alloc),
        }
    }

    /// What stands next.
    pub(crate) fn ahead(&self) -> Ahead
        ensures { result ≡ scan self.now.rest }
    {
        self.ahead
    }

    /// The word that stands next, if one does.
    pub(crate) fn word_ahead(&self) -> Option<&'a [u8]>
        ensures { (test : List ℕ → Bool) → sees_word test self.now ≡ option_map_or test (option_copied result) false }
    {
        match self.ahead {
            Ahead::Found {
                kind: Kind::Word,
                gap,
                len,
            } => {
                let (_, token) = self.rest.split_at(gap);
                let (text, _) = token.split_at(len);
                Some(text)
            }
            _ => None,
        }
    }

    /// Whether a word comes next.
    pub(crate) fn sees_text(&self, word: &[u8]) -> bool
        ensures { result ≡ sees_word (is_text word.now) self.now }
    {
        match self.word_ahead() {
            Some(text) => is_text(word, text),
            None => false,
        }
    }

    /// Where what is read is kept.
    pub(crate) fn alloc(&self) -> alloc::Global {
        self.alloc
    }

    /// The line of the bytes that are left, from 1.
    pub(crate) fn line(&self) -> usize
        ensures { result ≡ self.now.line }
    {
        self.line
    }

    /// One more than the bytes that are left: how often a loop goes round at most.
    pub(crate) fn rounds(&self) -> usize
        ensures { result ≡ suc (length self.now.rest) }
    {
        self.rest.len() + 1
    }

    /// Reads the next token, whatever it is: its kind and text.
    pub(crate) fn next(&mut self) -> Result<(Kind, &'a [u8]), Unread>
        ensures { MatchResult result (λ token. next self.old ≡ Some ((token.0, token.1.now), self.new)) (λ e. e ≡ Syntax → next self.old ≡ None) }
    {
        self.left_before = self.rest.len();
        match self.ahead {
            Ahead::Found { kind, gap, len } => {
                let (_, token) = self.rest.split_at(gap);
                let (text, rest) = token.split_at(len);
                self.rest = rest;
                self.ahead = scan(rest);
                self.line += line_ends(kind);
                Ok((kind, text))
            }
            Ahead::End => Err(Unread::Syntax),
            Ahead::Bad => Err(Unread::Syntax),
        }
    }

    /// How many bytes were left before the token, or what is no token, at which the reader looked last.
    pub(crate) fn left_before(&self) -> usize {
        self.left_before
    }

    /// Reads the end of the text.
    pub(crate) fn finish(&mut self) -> Result<(), Unread>
        ensures { MatchResult result
            (λ _. (is_end (scan self.old.rest) ≡ true) × (self.new ≡ self.old))
            (λ e. e ≡ Syntax → is_end (scan self.old.rest) ≡ false) }
    {
        self.left_before = self.rest.len();
        match self.ahead {
            Ahead::End => Ok(()),
            _ => Err(Unread::Syntax),
        }
    }

    /// Reads the end of a line.
    pub(crate) fn newline(&mut self) -> Result<(), Unread>
        ensures { Gives newline self.old self.new result }
    {
        let (kind, text) = self.next()?;
        match newline_test(kind, text) {
            Some(()) => Ok(()),
            None => Err(Unread::Syntax),
        }
    }

    /// Reads a symbol.
    pub(crate) fn piece(&mut self, mark: Symbol) -> Result<(), Unread>
        ensures { Gives (piece mark) self.old self.new result }
    {
        let (kind, text) = self.next()?;
        match piece_test(mark, kind, text) {
            Some(()) => Ok(()),
            None => Err(Unread::Syntax),
        }
    }

    /// Reads a number without a minus sign.
    pub(crate) fn natural(&mut self) -> Result<u64, Unread>
        ensures { Gives natural self.old self.new result }
    {
        let (kind, text) = self.next()?;
        match natural_test(kind, text) {
            Some(number) => Ok(number),
            None => Err(Unread::Syntax),
        }
    }

    /// Reads a number, modulo 2^64.
    pub(crate) fn integer(&mut self) -> Result<u64, Unread>
        ensures { Gives integer self.old self.new result }
    {
        let (kind, text) = self.next()?;
        match integer_test(kind, text) {
            Some(number) => Ok(number),
            None => Err(Unread::Syntax),
        }
    }

    /// Reads a word.
    pub(crate) fn word(&mut self) -> Result<&'a [u8], Unread>
        ensures { GivesText (keyword Some) self.old self.new result }
    {
        let (kind, text) = self.next()?;
        match word_test(kind, text) {
            Some(word) => Ok(word),
            None => Err(Unread::Syntax),
        }
    }

    /// Reads a string: the bytes that it stands for.
    pub(crate) fn string(&mut self) -> Result<Seq<u8>, Unread>
        ensures { Gives string self.old self.new result }
    {
        let (kind, text) = self.next()?;
        match string_test(kind, text) {
            Some(text) => Ok(Seq::from_vec(string_bytes(self.alloc, text)?)),
            None => Err(Unread::Syntax),
        }
    }

    /// Reads this word.
    pub(crate) fn keyword(&mut self, word: &[u8]) -> Result<(), Unread>
        ensures { Gives (the_word word.now) self.old self.new result }
    {
        let text = self.word()?;
        if is_text(word, text) {
            Ok(())
        } else {
            Err(Unread::Syntax)
        }
    }

    /// Forgets the temporaries and labels: another function has its own.
    pub(crate) fn forget_names(&mut self)
        ensures { self.new ≡ record self.old { temps = []; labels = [] } }
    {
        self.temps.clear();
        self.labels.clear();
    }

    /// The names of the function's temporaries, in order of first appearance.
    pub(crate) fn temps(&self) -> Result<Seq<Name>, AllocError>
        ensures { IfOk result (λ names. names ≡ self.now.temps) }
    {
        self.temps.list(self.alloc)
    }

    /// The names of the function's labels, in order of first appearance.
    pub(crate) fn labels(&self) -> Result<Seq<Name>, AllocError>
        ensures { IfOk result (λ names. names ≡ self.now.labels) }
    {
        self.labels.list(self.alloc)
    }

    /// The global names of the text, in order of first appearance.
    pub(crate) fn symbols(&self) -> Result<Seq<Name>, AllocError>
        ensures { IfOk result (λ names. names ≡ self.now.symbols) }
    {
        self.symbols.list(self.alloc)
    }

    /// Reads a temporary.
    pub(crate) fn temp(&mut self) -> Result<Temp, Unread>
        ensures { Gives temp self.old self.new result }
    {
        let (kind, text) = self.next()?;
        match temp_test(kind, text) {
            Some(name) => Ok(Temp::at(self.temps.place(name)?)),
            None => Err(Unread::Syntax),
        }
    }

    /// Reads a label.
    pub(crate) fn label(&mut self) -> Result<Label, Unread>
        ensures { Gives label self.old self.new result }
    {
        let (kind, text) = self.next()?;
        match label_test(kind, text) {
            Some(name) => Ok(Label::at(self.labels.place(name)?)),
            None => Err(Unread::Syntax),
        }
    }

    /// Reads a global name.
    pub(crate) fn symbol(&mut self) -> Result<Global, Unread>
        ensures { Gives symbol self.old self.new result }
    {
        let (kind, text) = self.next()?;
        match symbol_test(kind, text) {
            Some(name) => Ok(Global::at(self.symbols.place(name)?)),
            None => Err(Unread::Syntax),
        }
    }
}
