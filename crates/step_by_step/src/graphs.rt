//! Points of functions, and the registers that are live at each.
//!
//! A graph is a text with a line for each point: the registers that it reads, the one that it writes, and the points behind it.
use crate::code_text::function::virtual_function;
use crate::lists::{add_numbers, numbers, registers};
use cfg_live::live::live_in;
use cfg_live::{Graph, Uses, points};
use il_ast::Seq;
use std::alloc::Global;
use text_maker::{TextMaker, say};

/// The graph of a text.
pub fn graph(alloc: Global, text: &str) -> Option<Graph> {
    let mut graph = Graph {
        uses: Seq::new(alloc),
        nexts: Seq::new(alloc),
    };
    for line in text.lines() {
        let (reads, rest) = line.split_once('|')?;
        let (writes, next) = rest.split_once('|')?;
        let uses = Uses {
            writes: writes.trim().parse::<u32>().ok(),
            reads: registers(alloc, reads)?,
        };
        graph.uses.push(uses).ok()?;
        graph.nexts.push(numbers(alloc, next)?).ok()?;
    }
    Some(graph)
}

/// Which of so many registers are live at each point of a graph, looked for up to the number behind the last.
pub fn live_registers(alloc: Global, text: &str, count: &str) -> Option<String> {
    let registers = count.parse::<u32>().ok()?;
    let graph = graph(alloc, text)?;
    let live = live_in(alloc, &graph, registers).ok()?;
    let mut text = TextMaker::new(alloc);
    for point in 0..graph.uses.len().saturating_add(1) {
        say!(text; "{point}:");
        for register in 0..registers.saturating_add(1) {
            if live.holds(point, register) {
                say!(text; " {register}");
            }
        }
        text.add("\n");
    }
    text.finish().ok()
}

fn add_point(text: &mut TextMaker, graph: &Graph, point: usize) {
    if let Some(uses) = graph.uses.as_slice().get(point) {
        for register in uses.reads.as_slice() {
            say!(text; "{register} ");
        }
        text.add("|");
        if let Some(register) = uses.writes {
            say!(text; " {register}");
        }
    }
    text.add(" |");
    if let Some(next) = graph.nexts.as_slice().get(point) {
        add_numbers(text, next.as_slice());
    }
    text.add("\n");
}

/// The graph of a function's points.
pub fn points_of(alloc: Global, text: &str) -> Option<String> {
    let function = virtual_function(alloc, text)?;
    let graph = points::graph(alloc, &function).ok()?;
    let mut text = TextMaker::new(alloc);
    for point in 0..graph.uses.len().max(graph.nexts.len()) {
        add_point(&mut text, &graph, point);
    }
    text.finish().ok()
}
