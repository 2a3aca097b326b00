//! Why one text is refused.
ghost use Rattle.std.specs.Prelude.{◌≡◌, IfOk};

use crate::broken::{all_broken, is_same};
use crate::data::{add_repeated_global, add_wrong_alignment, add_wrong_fields};
use crate::definition::function_at;
use crate::label::{add_jump_to_entry, add_open_end, add_repeated_local, add_unknown_label};
use crate::limit::add_text_limit;
use crate::note::{Gathered, Note, make_note};
use crate::phi::add_uncovered;
use crate::place::steps;
use crate::remark::{Remark, make_remark};
use crate::size::{add_long_blit, add_wrong_alloc};
use crate::syntax::add_unexpected;
use crate::temporary::{add_misfit, add_two_classes, add_undefined, add_wrong_return};
use il_ast::Text;
use il_reader::read::{read, stop};
use il_types::{BrokenRule, Rule};
use std::alloc::{AllocError, Global};
use text_maker::TextMaker;

/// What stands at the line where the reading of a text ended.
pub fn syntax(alloc: Global, bytes: &[u8]) -> Result<String, AllocError> {
    let mut words = TextMaker::new(alloc);
    let at = stop(alloc, bytes);
    add_unexpected(&mut words, bytes.get(at..).unwrap_or(&[]));
    words.finish()
}

/// Which names break a rule at a line.
pub fn rule(alloc: Global, bytes: &[u8], fault: BrokenRule) -> Result<String, AllocError> {
    rule_words(alloc, &text_of(alloc, bytes)?, fault)?.finish()
}

/// A text that was read before.
fn text_of(alloc: Global, bytes: &[u8]) -> Result<Text, AllocError> {
    read(alloc, bytes).map_err(|_| AllocError)
}

/// So many mistakes of a text are told beside the one that it is refused for.
const MOST_OTHERS: usize = 200;

/// The places of the text with this number, beside this one, that break rules, by line; as far as they are told.
pub fn other_rules(
    alloc: Global,
    number: usize,
    bytes: &[u8],
    fault: BrokenRule,
) -> Result<Vec<Remark>, AllocError> {
    let text = text_of(alloc, bytes)?;
    let others = all_broken(alloc, &text)?;
    let mut remarks = Gathered::new(alloc);
    let mut left = MOST_OTHERS;
    let mut last = fault;
    for other in others.as_slice() {
        if left > 0 && !is_same(*other, fault) && !is_same(*other, last) {
            let words = rule_words(alloc, &text, *other)?;
            remarks.add(make_remark(Some(other.rule), number, other.line, words));
            left -= 1;
            last = *other;
        }
    }
    remarks.finish()
}

/// Which limit the text with this number passes, and where.
pub fn limit(alloc: Global, number: usize, bytes: &[u8]) -> Result<Note, AllocError>
    ensures { IfOk result (λ note. note.text ≡ number) }
{
    let mut words = TextMaker::new(alloc);
    let line = add_text_limit(&mut words, &text_of(alloc, bytes)?);
    make_note(number, line, words)
}

/// Says which names break a rule.
fn rule_words(alloc: Global, text: &Text, fault: BrokenRule) -> Result<TextMaker, AllocError> {
    let mut words = TextMaker::new(alloc);
    let line = fault.line;
    match (fault.rule, function_at(text, line)) {
        (Rule::DistinctGlobals, _) => add_repeated_global(&mut words, text, line),
        (Rule::DataFields, _) => add_wrong_fields(&mut words, text, line),
        (Rule::Alignment, _) => add_wrong_alignment(&mut words, text, line),
        (_, None) => {}
        (Rule::DistinctLocals, Some(function)) => add_repeated_local(&mut words, function, line),
        (Rule::KnownLabels, Some(function)) => add_unknown_label(&mut words, function, line),
        (Rule::EntryNotTarget, Some(function)) => add_jump_to_entry(&mut words, function),
        (Rule::LastBlockEnds, Some(function)) => add_open_end(&mut words, function, line),
        (Rule::PhiCoversPredecessors, Some(function)) => add_uncovered(&mut words, function, line),
        (Rule::AllocInEntry, Some(function)) => add_wrong_alloc(&mut words, function, line),
        (Rule::ReturnFits, Some(function)) => add_wrong_return(&mut words, function),
        (Rule::BlitSize, Some(function)) => add_long_blit(&mut words, function, line),
        (Rule::OneType, Some(function)) => {
            add_two_classes(
                &mut words,
                function,
                steps(alloc, function)?.as_slice(),
                line,
            )
        }
        (Rule::OperandFits, Some(function)) => {
            add_misfit(
                &mut words,
                text,
                function,
                steps(alloc, function)?.as_slice(),
                line,
            )
        }
        (Rule::DefinedTemporaries, Some(function)) => {
            add_undefined(
                &mut words,
                function,
                steps(alloc, function)?.as_slice(),
                line,
            )
        }
    }
    Ok(words)
}
