//! Live registers.
ghost use Rattle.std.specs.Prelude.{◌≡◌, ◌≤◌, ◌+◌, length, OnOk, IfOk};
ghost use Rattle.cfg_live.specs.Rows.{graph_of, AreBlank, AreLive};

use crate::graph::Graph;
use crate::points::graph;
use crate::sets::Live;
use crate::spread::spread;
use bitset::BitSet;
use std::alloc::{AllocError, Global};
use vcode::VFunc;

fn push_blank(alloc: Global, rows: &mut Vec<BitSet>, registers: usize) -> Result<(), AllocError>
    requires { AreBlank registers rows.old.items }
    ensures as_many { OnOk result (length rows.new.items ≡ length rows.old.items + 1) }
    ensures blank { OnOk result (AreBlank registers rows.new.items) }
{
    let row = BitSet::new(alloc, registers)?;
    rows.push(row)?;
    Ok(())
}

/// So many empty sets.
fn blank_rows(alloc: Global, points: usize, registers: usize) -> Result<Vec<BitSet>, AllocError>
    ensures as_many { IfOk result (λ v. length v.items ≡ points) }
    ensures blank { IfOk result (λ v. AreBlank registers v.items) }
{
    let mut rows = Vec::with_capacity(alloc, points)?;
    for _ in 0..points {
        push_blank(alloc, &mut rows, registers)?;
    }
    Ok(rows)
}

/// Lets empty sets, one for each point at least, grow to those of the live registers.
fn fill(
    alloc: Global,
    rows: &mut [BitSet],
    graph: &Graph,
    registers: usize,
) -> Result<(), AllocError>
    requires blank { AreBlank registers rows.old }
    requires uses { length graph.now.uses ≤ length rows.old }
    requires nexts { length graph.now.nexts ≤ length rows.old }
    ensures as_many { OnOk result (length rows.new ≡ length rows.old) }
    ensures live { OnOk result (AreLive graph.now registers rows.new) }
{
    let mut set = BitSet::new(alloc, registers)?;
    spread(alloc, rows, &mut set, graph)
}

/// The live registers of each point of a graph whose points name registers below `registers`: exactly those that some path from there reads before it
/// writes them. Other registers are live nowhere.
///
/// It takes a bit for each point and register.
///
/// # Errors
///
/// Only where memory was refused.
pub fn live_in(alloc: Global, graph: &Graph, registers: u32) -> Result<Live, AllocError>
    ensures { IfOk result (λ l. AreLive graph.now registers l) }
{
    let points = graph.uses.len().max(graph.nexts.len());
    let mut rows = blank_rows(alloc, points, registers as usize)?;
    fill(alloc, rows.as_mut_slice(), graph, registers as usize)?;
    Ok(Live { rows })
}

/// The live registers of a function, right before each of its points, as `live_in` has them.
///
/// # Errors
///
/// Only where memory was refused.
pub fn live(alloc: Global, function: &VFunc) -> Result<Live, AllocError>
    ensures { IfOk result (λ l. AreLive (graph_of function.now.code) function.now.registers l) }
{
    let graph = graph(alloc, function)?;
    live_in(alloc, &graph, function.registers)
}
