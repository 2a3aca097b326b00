//! Why texts that keep the rules are no program.
use crate::definition::{is_exported, line_of, symbol_of};
use crate::limit::program_limit;
use crate::mention::{line_in, symbol_in};
use crate::name::{Named, class_word, shown};
use crate::note::{Note, make_note};
use il_ast::{Definition, Text};
use il_types::Checked;
use obj_link::LinkError;
use std::alloc::{AllocError, Global};
use text_maker::{TextMaker, say};

/// Why the texts are no program, and where. The paths are those of the texts, in order.
pub fn link(
    alloc: Global,
    paths: &[&str],
    texts: &[Checked],
    error: LinkError<'_>,
) -> Result<Note, AllocError> {
    match error {
        LinkError::UnknownName(name) => unknown(alloc, texts, name),
        LinkError::ExportedTwice(name) => exported_twice(alloc, paths, texts, name),
        LinkError::NoMain => no_main(alloc, texts),
        LinkError::Limit => program_limit(alloc, texts),
        LinkError::Memory => Err(AllocError),
    }
}

/// The definition of a name in a text.
fn defined<'a>(text: &'a Text, name: &[u8]) -> Option<&'a Definition> {
    let symbol = symbol_in(text, name)?;
    let mut definitions = text.definitions.as_slice().iter();
    definitions.find(|definition| symbol_of(definition) == symbol)
}

/// A name that means nothing in a text: the first one that mentions it and doesn't define it.
fn unknown(alloc: Global, texts: &[Checked], name: &[u8]) -> Result<Note, AllocError> {
    let mut words = TextMaker::new(alloc);
    let named = Named::global(shown(name));
    say!(words; "{named} is defined nowhere that this text sees");
    for (number, checked) in texts.iter().enumerate() {
        if defined(&checked.text, name).is_none()
            && let Some(symbol) = symbol_in(&checked.text, name)
        {
            let line = line_in(alloc, &checked.text, symbol)?;
            return make_note(number, line.unwrap_or(1), words);
        }
    }
    make_note(0, 1, words)
}

/// The last of these texts that exports a name, and the line.
fn exported(texts: &[Checked], name: &[u8]) -> Option<(usize, usize)> {
    let mut numbered = texts.iter().enumerate().rev();
    numbered.find_map(|(number, checked)| {
        let definition = defined(&checked.text, name)?;
        is_exported(definition).then_some((number, line_of(definition)))
    })
}

/// A name that two texts export, or that is predefined.
fn exported_twice(
    alloc: Global,
    paths: &[&str],
    texts: &[Checked],
    name: &[u8],
) -> Result<Note, AllocError> {
    let mut words = TextMaker::new(alloc);
    let named = Named::global(shown(name));
    let (text, line) = exported(texts, name).unwrap_or((0, 1));
    match exported(texts.get(..text).unwrap_or(&[]), name) {
        Some((other, at)) => {
            let path = paths.get(other).copied().unwrap_or("?");
            say!(words; "{named} is exported here and at {path}:{at}");
        }
        None => say!(words; "{named} is predefined, and exported here too"),
    }
    make_note(text, line, words)
}

/// No `main` of either form is exported: the first one that is exported isn't of these, or the first one isn't exported, or there is none.
fn no_main(alloc: Global, texts: &[Checked]) -> Result<Note, AllocError> {
    let mut words = TextMaker::new(alloc);
    let any = exported(texts, b"main").is_none();
    let main = texts.iter().enumerate().find_map(|(number, checked)| {
        let definition = defined(&checked.text, b"main")?;
        (any || is_exported(definition)).then_some((number, definition))
    });
    let (text, line) = match main {
        Some((text, definition)) => {
            add_no_main(&mut words, definition);
            (text, line_of(definition))
        }
        None => {
            words.add("no function $main is exported");
            (0, 1)
        }
    };
    make_note(text, line, words)
}

/// Why this definition of `main` is none that a program begins with.
fn add_no_main(words: &mut TextMaker, definition: &Definition) {
    match definition {
        Definition::Function(function) if function.exported => {
            words.add("$main is ");
            if let Some(class) = function.result {
                say!(words; "{} ", class_word(class));
            }
            words.add("(");
            for (number, param) in function.params.as_slice().iter().enumerate() {
                words.add(if number == 0 { "" } else { ", " });
                words.add(class_word(param.class));
            }
            words.add("), and not w () or w (w, l)");
        }
        Definition::Function(_) => words.add("$main isn't exported"),
        Definition::Object(_) => words.add("$main is data, and no function"),
    }
}
