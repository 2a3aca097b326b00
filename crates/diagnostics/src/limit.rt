//! Which limit a text, or a program, passes.
use crate::name::{Count, global};
use crate::note::{Note, make_note};
use il_ast::limits::{
    ALLOC_BYTES, ARGUMENTS, DATA_BYTES, FUNCTION_WEIGHT, FUNCTIONS, PROGRAM_WEIGHT, TEMPORARIES,
    TEXT_BYTES, TEXTS,
};
use il_ast::{Block, Definition, Func, Inst, Text};
use il_types::Checked;
use il_types::cost::{alloc_area, weight};
use obj_link::linking::limits::object_size;
use std::alloc::{AllocError, Global};
use text_maker::{TextMaker, say};

/// Says which limit a text passes. Answers the line.
pub fn add_text_limit(words: &mut TextMaker, text: &Text) -> usize {
    for definition in text.definitions.as_slice() {
        if let Definition::Function(function) = definition
            && let Some(line) = add_function_limit(words, text, function)
        {
            return line;
        }
    }
    let most = Count(TEXT_BYTES as u64);
    say!(words; "{} bytes in the text, at most {most}", Count(text.bytes as u64));
    1
}

/// Says which limit a function passes. Answers the line, where it passes one.
fn add_function_limit(words: &mut TextMaker, text: &Text, function: &Func) -> Option<usize> {
    let temps = function.temps.len() as u64;
    let params = function.params.len() as u64;
    let limits = [
        (temps, "temporaries", TEMPORARIES as u64),
        (params, "parameters", ARGUMENTS as u64),
        (alloc_area(function), "bytes of alloc", ALLOC_BYTES),
        (weight(function), "of weight", FUNCTION_WEIGHT),
    ];
    match limits.iter().find(|(count, _, most)| count > most) {
        Some((count, what, most)) => {
            let name = global(text, function.name);
            say!(words; "{} {what} in {name}, at most {}", Count(*count), Count(*most));
            Some(function.line)
        }
        None => {
            let mut blocks = function.blocks.as_slice().iter();
            blocks.find_map(|block| add_long_call(words, block))
        }
    }
}

/// Says how many arguments a call has that has too many. Answers its line, where there is one.
fn add_long_call(words: &mut TextMaker, block: &Block) -> Option<usize> {
    for inst in block.insts.as_slice() {
        if let Inst::Call { args, .. } = &inst.item
            && args.len() > ARGUMENTS
        {
            let most = Count(ARGUMENTS as u64);
            say!(words; "{} arguments, at most {most}", Count(args.len() as u64));
            return Some(inst.line);
        }
    }
    None
}

/// Which limit over all texts a program passes.
pub(crate) fn program_limit(alloc: Global, texts: &[Checked]) -> Result<Note, AllocError> {
    let mut functions: u64 = 0;
    let mut heavy: u64 = 0;
    let mut bytes: u64 = 0;
    for checked in texts {
        for definition in checked.text.definitions.as_slice() {
            match definition {
                Definition::Function(function) => {
                    functions = functions.saturating_add(1);
                    heavy = heavy.saturating_add(weight(function));
                }
                Definition::Object(object) => {
                    let size = object_size(object).div_ceil(16).saturating_mul(16);
                    bytes = bytes.saturating_add(size);
                }
            }
        }
    }
    let (count, what, most) = if texts.len() > TEXTS {
        (texts.len() as u64, "texts", TEXTS as u64)
    } else if functions > FUNCTIONS as u64 {
        (functions, "functions in all", FUNCTIONS as u64)
    } else if heavy > PROGRAM_WEIGHT {
        (heavy, "of weight in all", PROGRAM_WEIGHT)
    } else {
        (bytes, "bytes of data in all", DATA_BYTES)
    };
    let mut words = TextMaker::new(alloc);
    say!(words; "{} {what}, at most {}", Count(count), Count(most));
    make_note(0, 1, words)
}
