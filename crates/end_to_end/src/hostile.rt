//! Programs compiled with strategies of every kind: each executable does the same.
use crate::case::{Case, Program};
use crate::compiled::{file_by, ran};
use crate::strategies::{Answer, Cut, Fixed, List};
use crate::told::begin;
use rv_machine::PageRam;
use std::alloc::AllocError;
use test_report::report::Report;
use vcode::Location;

/// What the strategies answer, beside a place for each register and a list cut.
const ANSWERS: [Answer; 21] = [
    Answer::Nothing,
    Answer::Blank,
    Answer::Everywhere(Location::Slot(0)),
    Answer::Everywhere(Location::Slot(4294967295)),
    Answer::Slots { more: false },
    Answer::Slots { more: true },
    Answer::OtherSlots,
    Answer::EverySecondTime,
    Answer::WrongEverySecondTime,
    Answer::OneInX5(0),
    Answer::OneInX5(1),
    Answer::OneInX5(2),
    Answer::InTurn,
    Answer::Turned { by: 1 },
    Answer::Turned { by: 4 },
    Answer::Backward,
    Answer::Moves(Location::Register(5), Location::Slot(0), 1),
    Answer::Moves(Location::Register(5), Location::Register(6), 1),
    Answer::Moves(Location::Slot(0), Location::Register(5), 1000),
    Answer::Moves(Location::Slot(0), Location::Register(2), 1),
    Answer::Moves(Location::Slot(4294967295), Location::Slot(0), 1),
];

// The program's executable by this strategy ends as is wanted, twice, since a strategy may change its answer.
fn check_answer(
    program: &Program<'_>,
    answer: Answer,
    report: &mut Report,
) -> Result<(), AllocError> {
    let case = program.case;
    begin(report, format_args!("{} by {answer:?}", case.name))?;
    let mut allocator = Fixed::new(report.alloc, answer);
    for what in ["first time", "second time"] {
        let file = file_by(what, program.texts.as_slice(), &mut allocator, report)?;
        let (words, limit) = (program.words.as_slice(), case.instructions_given());
        let said = ran::<PageRam>(report.alloc, file.as_slice(), words, limit)?;
        report.compare_runs(what, &case.wanted, &said)?;
    }
    Ok(())
}

fn check_answers(program: &Program<'_>, report: &mut Report) -> Result<(), AllocError> {
    for answer in ANSWERS {
        check_answer(program, answer, report)?;
    }
    for register in [0, 2, 5, 10, 18, 31, 255] {
        let place = Location::Register(register);
        check_answer(program, Answer::Everywhere(place), report)?;
    }
    for list in [List::Params, List::Starts, List::Moves, List::Places] {
        for cut in [Cut::Shorter, Cut::Longer, Cut::Empty] {
            check_answer(program, Answer::OneList(list, cut), report)?;
        }
    }
    Ok(())
}

/// Checks the programs that the strategies are tried on.
pub fn check(cases: &[Case], report: &mut Report) -> Result<(), AllocError> {
    for case in cases {
        if case.marks.is_tried {
            check_answers(&Program::of(report.alloc, case)?, report)?;
        }
    }
    Ok(())
}
