//! All that is told of a run.
use crate::trace::cause::add_cause;
use crate::trace::needs::{add_need_of_main, add_needs};
use crate::trace::source::{Source, Story, add_turn};
use crate::trace::turn::add_operands;
use crate::trace::values::add_value;
use il_ast::End;
use il_interp::pieces::Running;
use il_interp::trace::Place;
use std::alloc::{AllocError, Global};
use text_maker::{TextMaker, say};

/// So many calls are told, the innermost ones.
const MOST_CALLS: usize = 20;

/// The lines that tell of a run that was watched and ended so: the last turns, as many as are remembered; where the last one was due, or the next one where the run
/// goes on; what its operands hold; the cause, where it is undefined or runs out of stack; and the calls that it stands in. No line, where memory for them was refused.
pub fn story(alloc: Global, source: &Source<'_>, running: &Running<'_>, end: End) -> String {
    let story = Story {
        words: TextMaker::new(alloc),
        source,
        running,
    };
    told(alloc, story, end).unwrap_or(String::new(alloc))
}

/// The line that tells of a program which came to no turn.
pub fn story_of_start(alloc: Global, source: &Source<'_>) -> String {
    let mut words = TextMaker::new(alloc);
    add_turn(&mut words, source, Place::start(source.linked), "in");
    words.add("\n");
    add_need_of_main(&mut words, source);
    words.finish().unwrap_or(String::new(alloc))
}

fn told(alloc: Global, mut story: Story<'_>, end: End) -> Result<String, AllocError> {
    let source = story.source;
    let running = story.running;
    for number in 0..running.turns() {
        add_done(&mut story, number);
    }
    if let Some(place) = running.place() {
        add_turn(&mut story.words, source, place, "in");
        story.words.add("\n");
        add_operands(alloc, &mut story, place)?;
        match end {
            End::Undefined => add_cause(alloc, &mut story, place)?,
            End::Stack => add_needs(alloc, &mut story, place)?,
            End::Exit(_) | End::Halt | End::Turns => {}
        }
    }
    add_calls(&mut story);
    story.words.finish()
}

/// Adds a line for the turn with this number, of those that were done last, with what it assigned.
fn add_done(story: &mut Story<'_>, number: usize) {
    if let Some(turn) = story.running.turn(number) {
        add_turn(&mut story.words, story.source, turn.place, "in");
        if turn.assigned.is_some() {
            story.words.add(" => ");
            add_value(story, turn.assigned);
        }
        story.words.add("\n");
    }
}

/// Adds a line for each call that the last turn stands in, the innermost first.
fn add_calls(story: &mut Story<'_>) {
    for number in 0..MOST_CALLS {
        let Some(place) = story.running.caller(number) else {
            return;
        };
        add_turn(&mut story.words, story.source, place, "called by");
        story.words.add("\n");
    }
    match story.running.callers().saturating_sub(MOST_CALLS) {
        0 => {}
        1 => story.words.add("    and 1 more call\n"),
        left => say!(story.words; "    and {left} more calls\n"),
    }
}
