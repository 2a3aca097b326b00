//! Values, as they are told.
use crate::name::{Named, name_in};
use crate::trace::source::{Source, Story, add_place, function_name};
use il_ast::{Callee, Value};
use text_maker::{TextMaker, say};

/// Adds what a temporary holds.
pub fn add_value(story: &mut Story<'_>, value: Option<Value>) {
    match value {
        Some(Value::Integer(number)) => add_integer(&mut story.words, number),
        Some(Value::Pointer { block, offset }) => add_pointer(story, block, offset),
        Some(Value::Function(callee)) => say!(story.words; "{}", callee_name(story.source, callee)),
        None => story.words.add("not assigned"),
    }
}

/// Adds a number, and the negative one of 64 or of 32 bits that it is too.
fn add_integer(words: &mut TextMaker, number: u64) {
    say!(words; "{number}");
    let signed = number.cast_signed();
    if signed < 0 {
        say!(words; " ({signed})");
    } else if let Ok(word) = u32::try_from(number)
        && word.cast_signed() < 0
    {
        say!(words; " (as a word {})", word.cast_signed());
    }
}

/// The name of what is called.
pub fn callee_name<'a>(source: &'a Source<'_>, callee: Callee) -> Named<'a> {
    match callee {
        Callee::Defined(number) => function_name(source, number),
        Callee::SystemWrite => Named::global("write"),
        Callee::SystemExit => Named::global("exit"),
    }
}

/// Adds a pointer: its offset, its block, and where that comes from.
fn add_pointer(story: &mut Story<'_>, block: u128, offset: u64) {
    let linked = story.source.linked;
    let objects = linked.objects.as_slice();
    let count = objects.len() as u128;
    let start = story.running.start_blocks();
    let words = &mut story.words;
    say!(words; "offset {}", offset.cast_signed());
    match story.running.block_size(block) {
        Some(1) => words.add(" of the 1 byte"),
        Some(size) => say!(words; " of the {size} bytes"),
        None => words.add(" of the dead block"),
    }
    if block < count {
        match objects.get(number_of(block)) {
            Some(object) => say!(words; " of {}", name_in(linked, object.text, object.item.name)),
            None => words.add(" of ?"),
        }
    } else if block.saturating_add(1) == start {
        words.add(" of the list of argument words");
    } else if block < start {
        say!(words; " of argument word {}", number_of(block - count));
    } else if let Some(place) = story.running.maker(block) {
        words.add(" made at ");
        add_place(words, story.source, place);
    }
}

/// A number as one of the machine's word size, or the greatest of these.
fn number_of(number: u128) -> usize {
    usize::try_from(number).unwrap_or(usize::MAX)
}
