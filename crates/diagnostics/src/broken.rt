//! All places of a text that break rules.
use crate::data::{has_wrong_alignment, has_wrong_fields};
use crate::definition::{line_of, symbol_of};
use crate::label::targets;
use crate::note::Gathered;
use crate::phi::is_wrong;
use crate::place::{Does, Step, steps};
use crate::size::{is_long_blit, is_wrong_alloc};
use il_ast::{
    Block, Class, Definition, Extension, Func, Inst, Jump, Label, Param, Text, UnaryOp, Val,
};
use il_types::label_blocks::block_places;
use il_types::{BrokenRule, Rule};
use std::alloc::{AllocError, Global};

pub fn is_same(one: BrokenRule, other: BrokenRule) -> bool {
    one.line == other.line && one.rule.number() == other.rule.number()
}

/// Adds a rule that is broken at a line. Answers whether it wasn't the last one already.
fn tell(breaks: &mut Gathered<BrokenRule>, rule: Rule, line: usize) -> bool {
    let fault = BrokenRule { rule, line };
    let is_new = !breaks.last().is_some_and(|last| is_same(*last, fault));
    if is_new {
        breaks.add(Ok(fault));
    }
    is_new
}

/// The rules that a text breaks, each at each of its places, by line. What clashes is named at the first of its places.
pub fn all_broken(alloc: Global, text: &Text) -> Result<Vec<BrokenRule>, AllocError> {
    let mut breaks = Gathered::new(alloc);
    let definitions = text.definitions.as_slice();
    let count = text.symbols.len();
    let named = |it: &Definition| (symbol_of(it).number(), line_of(it));
    add_repeated(
        &mut breaks,
        Rule::DistinctGlobals,
        count,
        definitions,
        named,
    )?;
    for definition in definitions {
        match definition {
            Definition::Function(function) => add_function(&mut breaks, function)?,
            Definition::Object(object) => {
                if has_wrong_fields(object) {
                    tell(&mut breaks, Rule::DataFields, object.line);
                }
                if has_wrong_alignment(object) {
                    tell(&mut breaks, Rule::Alignment, object.line);
                }
            }
        }
    }
    let mut list = breaks.finish()?;
    list.sort_by_key(|fault| fault.line)?;
    Ok(list)
}

/// Adds each name that several items have, at the line of the first of them. An item is named by a number below this count.
fn add_repeated<T, F: Fn(&T) -> (usize, usize)>(
    breaks: &mut Gathered<BrokenRule>,
    rule: Rule,
    count: usize,
    items: &[T],
    named: F,
) -> Result<(), AllocError>
    requires { F.IsAlwaysCallable named }
{
    let mut times = vec![in breaks.alloc; 0u8; count]?;
    for item in items {
        if let Some(times) = times.get_mut(named(item).0) {
            *times = times.saturating_add(1);
        }
    }
    for item in items {
        let (number, line) = named(item);
        if let Some(times) = times.get_mut(number)
            && *times > 1
        {
            *times = 0;
            tell(breaks, rule, line);
        }
    }
    Ok(())
}

/// Adds what is broken in a function.
fn add_function(breaks: &mut Gathered<BrokenRule>, function: &Func) -> Result<(), AllocError> {
    let alloc = breaks.alloc;
    let count = function.temps.len();
    let params = function.params.as_slice();
    let named = |param: &Param| (param.temp.number(), param.line);
    add_repeated(breaks, Rule::DistinctLocals, count, params, named)?;
    add_blocks(breaks, function)?;
    let steps = steps(alloc, function)?;
    let mut classes = vec![in alloc; Classes::default(); count]?;
    for step in steps.as_slice() {
        if let Does::Assigns(temp) = step.does
            && let Some(classes) = classes.get_mut(temp.number())
        {
            match step.class {
                Class::W => classes.is_word = true,
                Class::L => classes.is_long = true,
            }
        }
    }
    add_of_classes(breaks, function, &mut classes, steps.as_slice());
    Ok(())
}

/// Adds what is broken of blocks, but for the classes of temporaries.
fn add_blocks(breaks: &mut Gathered<BrokenRule>, function: &Func) -> Result<(), AllocError> {
    let blocks = function.blocks.as_slice();
    let count = function.labels.len();
    let named = |block: &Block| (block.label.number(), block.line);
    add_repeated(breaks, Rule::DistinctLocals, count, blocks, named)?;
    let places = block_places(breaks.alloc, blocks)?;
    let entry = entry_of(blocks);
    for (number, block) in blocks.iter().enumerate() {
        add_phis(breaks, blocks, block, places.as_slice());
        for inst in block.insts.as_slice() {
            if is_wrong_alloc(&inst.item, number == 0) {
                tell(breaks, Rule::AllocInEntry, inst.line);
            }
            if is_long_blit(&inst.item) {
                tell(breaks, Rule::BlitSize, inst.line);
            }
        }
        add_end(breaks, block, entry, places.as_slice());
    }
    Ok(())
}

/// The number of the label of the first block, where no other block has it.
fn entry_of(blocks: &[Block]) -> Option<usize> {
    let (entry, others) = blocks.split_first()?;
    let is_alone = others.iter().all(|other| other.label != entry.label);
    is_alone.then_some(entry.label.number())
}

/// Whether a block has this label, of blocks at these places.
fn is_known(places: &[Option<usize>], label: Label) -> bool {
    matches!(places.get(label.number()), Some(Some(_)))
}

/// Adds the phis that name labels that the function hasn't, and those that don't cover the predecessors.
fn add_phis(
    breaks: &mut Gathered<BrokenRule>,
    blocks: &[Block],
    block: &Block,
    places: &[Option<usize>],
) {
    for phi in block.phis.as_slice() {
        let mut args = phi.args.as_slice().iter();
        if !args.all(|arg| is_known(places, arg.from)) {
            tell(breaks, Rule::KnownLabels, phi.line);
        } else if is_wrong(blocks, block, phi) {
            tell(breaks, Rule::PhiCoversPredecessors, phi.line);
        }
    }
}

/// Adds what is wrong with the end of a block.
fn add_end(
    breaks: &mut Gathered<BrokenRule>,
    block: &Block,
    entry: Option<usize>,
    places: &[Option<usize>],
) {
    let Some(jump) = &block.jump else {
        tell(breaks, Rule::LastBlockEnds, block.line);
        return;
    };
    for label in targets(block).into_iter().flatten() {
        if !is_known(places, label) {
            tell(breaks, Rule::KnownLabels, jump.line);
        } else if Some(label.number()) == entry {
            tell(breaks, Rule::EntryNotTarget, jump.line);
        }
    }
}

// ---- temporaries and their classes

/// With which classes a temporary is assigned, and whether it was told what is wrong with that.
#[derive(Clone, Copy, Default)]
struct Classes {
    is_word: bool,
    is_long: bool,
    is_told: bool,
}

/// Adds what is broken of temporaries and operands, rule by rule: what is assigned with both classes, what doesn't fit its place, and what nothing assigns.
fn add_of_classes(
    breaks: &mut Gathered<BrokenRule>,
    function: &Func,
    classes: &mut Vec<Classes>,
    steps: &[Step],
) {
    for step in steps {
        if let Does::Assigns(temp) = step.does
            && let Some(of) = classes.get_mut(temp.number())
            && of.is_word
            && of.is_long
            && !of.is_told
        {
            of.is_told = tell(breaks, Rule::OneType, step.line);
        }
    }
    for step in steps {
        if let Some(value) = step.read_within()
            && !fits(classes.as_slice(), step.class, value)
        {
            tell(breaks, Rule::OperandFits, step.line);
        }
    }
    for step in steps {
        if let Some(temp) = step.temp_read()
            && let Some(of) = classes.get_mut(temp.number())
            && !of.is_word
            && !of.is_long
            && !of.is_told
        {
            of.is_told = tell(breaks, Rule::DefinedTemporaries, step.line);
        }
    }
    for block in function.blocks.as_slice() {
        add_results(breaks, function, classes.as_slice(), block);
    }
}

/// Whether a value fits a place.
fn fits(classes: &[Classes], class: Class, value: Val) -> bool {
    match value {
        Val::Int(_) => true,
        Val::Temp(temp) => {
            class == Class::W || !classes.get(temp.number()).is_some_and(|of| of.is_word)
        }
        Val::Global(_) => class == Class::L,
    }
}

/// Adds the results of classes that their operations haven't, and a value that doesn't fit the function's class, where the block returns one.
fn add_results(
    breaks: &mut Gathered<BrokenRule>,
    function: &Func,
    classes: &[Classes],
    block: &Block,
) {
    for inst in block.insts.as_slice() {
        if has_wrong_result(&inst.item) {
            tell(breaks, Rule::OperandFits, inst.line);
        }
    }
    if let Some(jump) = &block.jump
        && let Jump::Return(Some(value)) = jump.item
        && !function
            .result
            .is_some_and(|class| fits(classes, class, value))
    {
        tell(breaks, Rule::ReturnFits, jump.line);
    }
}

fn has_wrong_result(inst: &Inst) -> bool {
    match inst {
        Inst::Unary { to, op, value: _ } => {
            to.class == Class::W
                && matches!(
                    op,
                    UnaryOp::LoadLong
                        | UnaryOp::Extend(Extension::SignedWord | Extension::UnsignedWord)
                )
        }
        Inst::Alloc { to, .. } => to.class == Class::W,
        _ => false,
    }
}
