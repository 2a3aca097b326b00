//! The lines of failures, written without taking memory.
ghost use Rattle.std.specs.Prelude.{◌≡◌, [], ◌∷◌, codes, map};
ghost use Rattle.std.specs.List.{concat};
ghost use Rattle.shell.specs.Sink.{Tells};
ghost use Rattle.commands.specs.declared.failure.Failure.TheVariants.{Fault};
ghost use Rattle.commands.specs.declared.refusal.Refusal.TheVariants.{Rule, Syntax};
ghost use Rattle.commands.specs.Messages.{file_number, line_of, refusal_parts};

use crate::failure::Failure;
use crate::refusal::Refusal;
use elf_file::LoadError;
use itoa::Buffer;
use shell::Sink;
use shell::digits::sixteen_digits;
use shell::write_exe::{write_exe, write_parts};

/// The number of a file's refusal.
pub(crate) fn file_number(error: LoadError) -> &'static str
    ensures { result.now ≡ file_number error }
{
    match error {
        LoadError::CutOff => "L1",
        LoadError::OtherKind => "L2",
        LoadError::OutOfRange => "L3",
        LoadError::Misplaced => "L4",
        LoadError::BadEntry => "L5",
        LoadError::Memory => "L6",
    }
}

/// Writes these bytes, as far as standard error takes them.
pub(crate) fn tell_bytes<E: Sink>(bytes: &[u8], err: &mut E)
    ensures { Tells (E.told err.old) (E.told err.new) bytes.now }
{
    let _ = write_exe(bytes, err);
}

/// Writes these parts, one after another, as far as standard error takes them.
fn tell_parts<E: Sink>(parts: &[&[u8]], err: &mut E)
    ensures { Tells (E.told err.old) (E.told err.new) (concat (map (λ p. p.now) parts.now)) }
{
    let _ = write_parts(parts, err);
}

/// Writes a name between these words and the line's end.
fn tell_named<E: Sink>(words: &[u8], name: &[u8], err: &mut E)
    ensures { Tells (E.told err.old) (E.told err.new) (concat (words.now ∷ name.now ∷ codes "\n" ∷ [])) }
{
    tell_parts(&[words, name, b"\n"], err)
}

fn tell_syntax<E: Sink>(text: usize, line: usize, err: &mut E)
    ensures { Tells (E.told err.old) (E.told err.new) (concat (refusal_parts (Syntax text line))) }
{
    let mut first = Buffer::new();
    let mut second = Buffer::new();
    tell_parts(
        &[
            b"qbec: refused E1 text ",
            first.format(text).as_bytes(),
            b" line ",
            second.format(line).as_bytes(),
            b"\n",
        ],
        err,
    )
}

fn tell_rule<E: Sink>(rule: u8, text: usize, line: usize, err: &mut E)
    ensures { Tells (E.told err.old) (E.told err.new) (concat (refusal_parts (Rule rule text line))) }
{
    let mut first = Buffer::new();
    let mut second = Buffer::new();
    let mut third = Buffer::new();
    tell_parts(
        &[
            b"qbec: refused E2 C",
            first.format(rule).as_bytes(),
            b" text ",
            second.format(text).as_bytes(),
            b" line ",
            third.format(line).as_bytes(),
            b"\n",
        ],
        err,
    )
}

fn tell_refusal<E: Sink>(refusal: &Refusal, err: &mut E)
    ensures { Tells (E.told err.old) (E.told err.new) (concat (refusal_parts refusal.now)) }
{
    match refusal {
        Refusal::Syntax { text, line } => tell_syntax(*text, *line, err),
        Refusal::Rule { rule, text, line } => tell_rule(*rule, *text, *line, err),
        Refusal::UnknownName(name) => tell_named(b"qbec: refused E3 $", name.as_slice(), err),
        Refusal::ExportedTwice(name) => tell_named(b"qbec: refused E4 $", name.as_slice(), err),
        Refusal::NoMain => tell_bytes(b"qbec: refused E5\n", err),
        Refusal::Limit => tell_bytes(b"qbec: refused E6\n", err),
        Refusal::Memory => tell_bytes(b"qbec: refused E7\n", err),
        Refusal::Words => tell_bytes(b"qbec: refused E8\n", err),
        Refusal::File(error) => tell_named(b"qbec: refused ", file_number(*error).as_bytes(), err),
    }
}

fn tell_fault<E: Sink>(number: u8, pc: u64, err: &mut E)
    ensures { Tells (E.told err.old) (E.told err.new) (line_of (Fault number pc)) }
{
    let mut buffer = Buffer::new();
    let number = buffer.format(number);
    let digits = sixteen_digits(pc);
    tell_parts(
        &[b"qbec: fault F", number.as_bytes(), b" at ", &digits, b"\n"],
        err,
    )
}

/// Writes the line of a failure to standard error, or a beginning of it where that fails.
pub fn tell<E: Sink>(failure: &Failure<'_>, err: &mut E)
    ensures { Tells (E.told err.old) (E.told err.new) (line_of failure.now) }
{
    match failure {
        Failure::Halt => tell_bytes(b"qbec: halt\n", err),
        Failure::Limit => tell_bytes(b"qbec: limit\n", err),
        Failure::Fault { number, pc } => tell_fault(*number, *pc, err),
        Failure::Undefined => tell_bytes(b"qbec: undefined\n", err),
        Failure::Stack => tell_bytes(b"qbec: stack\n", err),
        Failure::Memory => tell_bytes(b"qbec: memory\n", err),
        Failure::Refused(refusal) => tell_refusal(refusal, err),
        Failure::Unread(path) => tell_named(b"qbec: cannot read ", path.as_bytes(), err),
        Failure::Unwritten(path) => tell_named(b"qbec: cannot write ", path.as_bytes(), err),
        Failure::Output => tell_bytes(b"qbec: cannot write standard output\n", err),
    }
}
