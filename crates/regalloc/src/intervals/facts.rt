//! All that is known of a function before registers are given.
use crate::intervals::demands::{Demands, demands_of};
use crate::intervals::live_intervals::{LiveInterval, live_intervals};
use crate::intervals::starts::{Known, Starts, line_count, starts_of};
use crate::intervals::text::{Text, text_of};
use cfg_live::Live;
use std::alloc::{AllocError, Global};
use vcode::VFunc;

/// What is known of a function.
#[derive(Drop)]
pub(crate) struct Facts {
    /// its blocks
    pub(crate) text: Text,

    /// what is live where blocks begin
    pub(crate) starts: Starts,

    /// the live interval of each register
    pub(crate) intervals: Vec<LiveInterval>,

    /// what registers are used for, and where
    pub(crate) demands: Demands,
}

/// The facts of the function, with so many live registers named where blocks begin, for each line and jump, at most.
pub(crate) fn facts_of(
    alloc: Global,
    function: &VFunc,
    live: &Live,
    live_a_line: usize,
) -> Result<Facts, AllocError> {
    let code = &function.code;
    let registers = function.registers;
    let text = text_of(alloc, code.blocks.as_slice())?;
    let most = line_count(code.blocks.as_slice()).saturating_mul(live_a_line);
    let demands = demands_of(alloc, code, &text)?;
    let known = Known {
        text: &text,
        live,
        demands: &demands,
        registers,
    };
    let starts = starts_of(alloc, known, most)?;
    let intervals = live_intervals(alloc, registers, code, &starts, &text)?;
    Ok(Facts {
        text,
        starts,
        intervals,
        demands,
    })
}
