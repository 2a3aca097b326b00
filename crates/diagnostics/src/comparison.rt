//! Comparisons of functions with numbers.
use crate::call::target;
use crate::name::add_operand;
use crate::note::{Gathered, Note, make_note};
use crate::place::destination;
use il_ast::{BinaryOp, Class, Func, InText, Inst, Symbol, Target, Temp, UnaryOp, Val};
use obj_link::Linked;
use std::alloc::{AllocError, Global};
use text_maker::TextMaker;

/// The comparisons of a function that are undefined, since a function is compared with a number.
pub fn add_wrong_comparisons(
    notes: &mut Gathered<Note>,
    linked: &Linked<'_>,
    function: &InText<&Func>,
) -> Result<(), AllocError> {
    let held = held(notes.alloc, linked, function)?;
    let blocks = function.item.blocks.as_slice().iter();
    for inst in blocks.flat_map(|block| block.insts.as_slice()) {
        if let Some(operand) = compared(linked, function.text, held.as_slice(), &inst.item) {
            let mut words = TextMaker::new(notes.alloc);
            add_operand(&mut words, linked, function, operand);
            words.add(" is a function, and is compared with a number");
            notes.add(make_note(function.text, inst.line, words));
        }
    }
    Ok(())
}

/// The function that an instruction compares with a number.
fn compared(linked: &Linked<'_>, text: usize, held: &[Option<bool>], inst: &Inst) -> Option<Val> {
    let Inst::Binary {
        op: BinaryOp::Compare(_, Class::L),
        left,
        right,
        ..
    } = inst
    else {
        return None;
    };
    let operand = match (left, right) {
        (Val::Int(_), operand) | (operand, Val::Int(_)) => *operand,
        _ => return None,
    };
    let is_function = match operand {
        Val::Int(_) => false,
        Val::Global(symbol) => is_code(linked, text, symbol),
        Val::Temp(temp) => matches!(held.get(temp.number()), Some(Some(true))),
    };
    is_function.then_some(operand)
}

fn is_code(linked: &Linked<'_>, text: usize, symbol: Symbol) -> bool {
    matches!(target(linked, text, symbol), Some(Target::Code(_)))
}

/// For each temporary of a function whether it holds a function: whether all that it is assigned are copies of functions, where it is assigned.
fn held(
    alloc: Global,
    linked: &Linked<'_>,
    function: &InText<&Func>,
) -> Result<Vec<Option<bool>>, AllocError> {
    let mut held = vec![in alloc; None; function.item.temps.len()]?;
    for param in function.item.params.as_slice() {
        assign(&mut held, param.temp, false);
    }
    for block in function.item.blocks.as_slice() {
        for phi in block.phis.as_slice() {
            assign(&mut held, phi.to.temp, false);
        }
        for inst in block.insts.as_slice() {
            if let Some(to) = destination(&inst.item) {
                let is_function = is_copy_of_code(linked, function.text, &inst.item);
                assign(&mut held, to.temp, is_function);
            }
        }
    }
    Ok(held)
}

/// A temporary is assigned a function, or something else.
fn assign(held: &mut Vec<Option<bool>>, temp: Temp, is_function: bool) {
    if let Some(holds) = held.get_mut(temp.number()) {
        *holds = Some(is_function && *holds != Some(false));
    }
}

fn is_copy_of_code(linked: &Linked<'_>, text: usize, inst: &Inst) -> bool {
    match inst {
        Inst::Unary {
            to: _,
            op: UnaryOp::Copy,
            value: Val::Global(symbol),
        } => is_code(linked, text, *symbol),
        _ => false,
    }
}
