//! What is wrong with a phi.
use crate::label::targets;
use crate::name::{label, temp};
use il_ast::{Block, Func, Label, Phi};
use text_maker::{TextMaker, say};

/// A phi whose labels aren't the predecessors of its block, each once, or whose temporary another phi of the block assigns too.
pub fn add_uncovered(words: &mut TextMaker, function: &Func, line: usize) {
    for block in function.blocks.as_slice() {
        if let Some(phi) = block.phis.as_slice().iter().find(|phi| phi.line == line) {
            return add_wrong_phi(words, function, block, phi);
        }
    }
}

/// Whether the labels of a phi aren't the predecessors of its block, each once, or another phi of the block assigns its temporary too.
pub fn is_wrong(blocks: &[Block], block: &Block, phi: &Phi) -> bool {
    other_phi(block, phi).is_some()
        || missing(blocks, block, phi).is_some()
        || repeated(phi).is_some()
        || unled(blocks, block, phi).is_some()
}

fn add_wrong_phi(words: &mut TextMaker, function: &Func, block: &Block, phi: &Phi) {
    let blocks = function.blocks.as_slice();
    let to = temp(function, phi.to.temp);
    if let Some(line) = other_phi(block, phi) {
        say!(words; "{to} is assigned by this phi and by the one at line {line}");
    } else if let Some(from) = missing(blocks, block, phi) {
        say!(words; "{to} gets no value from the predecessor {}", label(function, from));
    } else if let Some(from) = repeated(phi) {
        say!(words; "{to} gets two values from {}", label(function, from));
    } else if let Some(from) = unled(blocks, block, phi) {
        let from = label(function, from);
        let here = label(function, block.label);
        say!(words; "{to} gets a value from {from}, which doesn't lead to {here}");
    } else {
        say!(words; "{to}");
    }
}

/// The line of another phi of the block that assigns the same.
fn other_phi(block: &Block, phi: &Phi) -> Option<usize> {
    let mut phis = block.phis.as_slice().iter();
    let other = phis.find(|other| other.to.temp == phi.to.temp && other.line != phi.line)?;
    Some(other.line)
}

/// Whether a block's jump names a label.
fn leads_to(block: &Block, label: Label) -> bool {
    targets(block).contains(&Some(label))
}

/// A predecessor that the phi leaves out.
fn missing(blocks: &[Block], block: &Block, phi: &Phi) -> Option<Label> {
    let mut blocks = blocks.iter();
    let found = blocks.find(|other| leads_to(other, block.label) && times(phi, other.label) == 0);
    Some(found?.label)
}

/// A label that the phi has twice.
fn repeated(phi: &Phi) -> Option<Label> {
    let mut args = phi.args.as_slice().iter();
    Some(args.find(|arg| times(phi, arg.from) > 1)?.from)
}

/// A label of the phi whose block doesn't lead to it.
fn unled(blocks: &[Block], block: &Block, phi: &Phi) -> Option<Label> {
    let mut args = phi.args.as_slice().iter();
    Some(args.find(|arg| !is_led(blocks, block, arg.from))?.from)
}

fn is_led(blocks: &[Block], block: &Block, from: Label) -> bool {
    blocks.iter().any(|other| other.label == from && leads_to(other, block.label))
}

/// How often the phi has a label.
fn times(phi: &Phi, label: Label) -> usize {
    let labels = phi.args.as_slice().iter().map(|arg| arg.from);
    labels.filter(|from| *from == label).count()
}
