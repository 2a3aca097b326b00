//! What is wrong with the labels of a function, and with its parameters.
use crate::name::{label, temp};
use il_ast::{Block, Func, Jump, Label, Param};
use text_maker::{TextMaker, say};

/// A label or a parameter that stands twice.
pub fn add_repeated_local(words: &mut TextMaker, function: &Func, line: usize) {
    let blocks = function.blocks.as_slice();
    let params = function.params.as_slice();
    if let Some(at) = label_at(blocks, line) {
        let mut others = blocks.iter();
        let other = others.find(|block| block.label == at && block.line != line);
        let other = other.map_or(line, |block| block.line);
        let name = label(function, at);
        say!(words; "{name} is the label of this block and of the one at line {other}");
    } else if let Some(param) = params.iter().find(|param| is_repeated(params, param)) {
        say!(words; "{} stands twice among the parameters", temp(function, param.temp));
    }
}

fn label_at(blocks: &[Block], line: usize) -> Option<Label> {
    Some(blocks.iter().find(|block| block.line == line)?.label)
}

fn is_repeated(params: &[Param], param: &Param) -> bool {
    let temps = params.iter().map(|other| other.temp);
    temps.filter(|temp| *temp == param.temp).count() > 1
}

/// Whether a function has a block of this label.
fn has_label(blocks: &[Block], label: Label) -> bool {
    blocks.iter().any(|block| block.label == label)
}

/// The labels that a block's jump names; two where it is a branch.
pub fn targets(block: &Block) -> [Option<Label>; 2] {
    let Some(jump) = &block.jump else {
        return [None, None];
    };
    match jump.item {
        Jump::Goto(label) => [Some(label), None],
        Jump::Branch {
            nonzero,
            otherwise,
            ..
        } => [Some(nonzero), Some(otherwise)],
        Jump::Return(_) | Jump::Halt => [None, None],
    }
}

/// A label of a jump or a phi that the function hasn't.
pub fn add_unknown_label(words: &mut TextMaker, function: &Func, line: usize) {
    let blocks = function.blocks.as_slice();
    match blocks
        .iter()
        .find_map(|block| unknown_in(blocks, block, line))
    {
        Some(unknown) => say!(words; "{} is no label of the function", label(function, unknown)),
        None => words.add("a label is none of the function"),
    }
}

/// A label that the function hasn't, of a block's jump or phi at this line.
fn unknown_in(blocks: &[Block], block: &Block, line: usize) -> Option<Label> {
    if block.jump.as_ref().is_some_and(|jump| jump.line == line) {
        let mut labels = targets(block).into_iter().flatten();
        return labels.find(|label| !has_label(blocks, *label));
    }
    let phi = block.phis.as_slice().iter().find(|phi| phi.line == line)?;
    let mut labels = phi.args.as_slice().iter().map(|arg| arg.from);
    labels.find(|label| !has_label(blocks, *label))
}

pub fn add_jump_to_entry(words: &mut TextMaker, function: &Func) {
    if let Some(entry) = function.blocks.as_slice().first() {
        let name = label(function, entry.label);
        say!(words; "{name} is the first block, to which no jump goes");
    }
}

pub fn add_open_end(words: &mut TextMaker, function: &Func, line: usize) {
    words.add("the last block");
    if let Some(at) = label_at(function.blocks.as_slice(), line) {
        say!(words; ", {},", label(function, at));
    }
    words.add(" ends without a jump");
}
