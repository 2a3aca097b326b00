//! What functions need and weigh.
use il_ast::Definition;
use il_types::cost::{capped_need, weight};
use qbec::texts::checked_texts;
use std::alloc::{AllocError, Global};
use text_maker::{TextMaker, say};

fn without_end(alloc: Global, text: TextMaker) -> Result<String, AllocError> {
    String::from_str(alloc, text.finish()?.as_str().trim_end())
}

/// What each function of the texts needs, and what it weighs, in order; nothing where the texts are refused.
pub fn measured(alloc: Global, texts: &[&[u8]]) -> Result<(String, String), AllocError> {
    let mut needs = TextMaker::new(alloc);
    let mut weights = TextMaker::new(alloc);
    if let Ok(checked) = checked_texts(alloc, texts) {
        for text in &checked {
            for definition in text.text.definitions.as_slice() {
                if let Definition::Function(function) = definition {
                    say!(needs; "{} ", capped_need(function));
                    say!(weights; "{} ", weight(function));
                }
            }
        }
    }
    Ok((without_end(alloc, needs)?, without_end(alloc, weights)?))
}
