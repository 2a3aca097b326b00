//! Mistakes of a text beside the one that it is refused for.
use crate::note::{Note, make_note};
use il_types::Rule;
use std::alloc::AllocError;
use text_maker::TextMaker;

/// A mistake at a line of a text: against the rule, or else against the grammar.
#[derive(Drop)]
pub struct Remark {
    pub rule: Option<Rule>,
    pub note: Note,
}

/// The mistake that these words tell, at a line of a text.
pub(crate) fn make_remark(
    rule: Option<Rule>,
    text: usize,
    line: usize,
    words: TextMaker,
) -> Result<Remark, AllocError> {
    let note = make_note(text, line, words)?;
    Ok(Remark { rule, note })
}
