//! The rules on temporaries: one type, operand fits, return fits, defined temporaries.
ghost use Rattle.std.specs.Prelude.{◌≡◌, ℕ, not, ◌&&◌};
ghost use Rattle.il_ast.specs.declared.operation.Class.TheVariants.{W, L};
ghost use Rattle.il_types.specs.declared.site.Definer.{Definer as DefinerOf};
ghost use Rattle.il_types.specs.declared.site.Operand.{Operand as OperandOf};
ghost use Rattle.il_types.specs.Prelude.{when, first, marked, is_given, two_types, misplaced, undefined_temp, wrong_return, fits, is_defined, in_returns, definers_of, operands_of, value_fits, value_is_defined, result_takes, returned_misfit, returned_undefined, returned_at};

use crate::insts::wrong_result;
use crate::labels::or_else;
use crate::marks::is_marked;
use crate::site::{Definer, Operand};
use il_ast::{Block, Class, Func, Jump, Lined, Val};

/// The line of a place that assigns a temporary which is assigned with both classes. The marks here
/// and below are the temporaries that are assigned with each.
pub fn two_types(
    function: &Func,
    places: &[Definer],
    words: &[bool],
    longs: &[bool],
) -> Option<usize>
    requires places { places.now ≡ definers_of function.now }
    requires words { (t : ℕ) → marked words.now t ≡ is_given W t places.now }
    requires longs { (t : ℕ) → marked longs.now t ≡ is_given L t places.now }
    ensures { result ≡ two_types function.now }
{
    first_of_both(places, words, longs)
}

fn first_of_both(places: &[Definer], words: &[bool], longs: &[bool]) -> Option<usize>
    ensures { result ≡ first (λ (d : DefinerOf). when (marked words.now d.temp && marked longs.now d.temp) d.line) places.now }
{
    for place in places {
        let temp = place.temp.number();
        if is_marked(words, temp) && is_marked(longs, temp) {
            return Some(place.line);
        }
    }
    None
}

/// The line of an operand that doesn't fit its place, or of a result of a class that its operation
/// hasn't.
pub fn misplaced(function: &Func, operands: &[Operand], words: &[bool]) -> Option<usize>
    requires operands { operands.now ≡ operands_of function.now }
    requires words { (t : ℕ) → marked words.now t ≡ is_given W t (definers_of function.now) }
    ensures { result ≡ misplaced function.now }
{
    let operand = first_misfit(operands, words);
    or_else(operand, wrong_result(function.blocks.as_slice()))
}

fn first_misfit(operands: &[Operand], words: &[bool]) -> Option<usize>
    ensures { result ≡ first (λ (o : OperandOf). when (not (value_fits words.now o.class o.value)) o.line) operands.now }
{
    for operand in operands {
        if !value_fits(words, operand.class, operand.value) {
            return Some(operand.line);
        }
    }
    None
}

/// Whether a value fits a place; the marks are the temporaries that are assigned as words.
fn value_fits(words: &[bool], class: Class, value: Val) -> bool
    ensures { result ≡ value_fits words.now class value }
{
    match value {
        Val::Int(_) => true,
        Val::Temp(temp) => class == Class::W || !is_marked(words, temp.number()),
        Val::Global(_) => class == Class::L,
    }
}

/// The line of an operand, or of a returned value, that is a temporary which is assigned nowhere.
pub fn undefined_temp(
    function: &Func,
    operands: &[Operand],
    words: &[bool],
    longs: &[bool],
) -> Option<usize>
    requires operands { operands.now ≡ operands_of function.now }
    requires words { (t : ℕ) → marked words.now t ≡ is_given W t (definers_of function.now) }
    requires longs { (t : ℕ) → marked longs.now t ≡ is_given L t (definers_of function.now) }
    ensures { result ≡ undefined_temp function.now }
{
    let operand = first_undefined(operands, words, longs);
    let value = undefined_return(function.blocks.as_slice(), words, longs);
    or_else(operand, value)
}

fn first_undefined(operands: &[Operand], words: &[bool], longs: &[bool]) -> Option<usize>
    ensures { result ≡ first (λ (o : OperandOf). when (not (value_is_defined words.now longs.now o.value)) o.line) operands.now }
{
    for operand in operands {
        if !is_assigned(words, longs, operand.value) {
            return Some(operand.line);
        }
    }
    None
}

fn is_assigned(words: &[bool], longs: &[bool], value: Val) -> bool
    ensures { result ≡ value_is_defined words.now longs.now value }
{
    match value {
        Val::Temp(temp) => is_marked(words, temp.number()) || is_marked(longs, temp.number()),
        Val::Int(_) | Val::Global(_) => true,
    }
}

fn undefined_return(blocks: &[Block], words: &[bool], longs: &[bool]) -> Option<usize>
    ensures { result ≡ returned_undefined words.now longs.now blocks.now }
{
    for block in blocks {
        if let Some((line, value)) = returned(&block.jump) {
            if !is_assigned(words, longs, value) {
                return Some(line);
            }
        }
    }
    None
}

/// The line of a returned value that doesn't fit the function's class.
pub fn wrong_return(function: &Func, words: &[bool]) -> Option<usize>
    requires { (t : ℕ) → marked words.now t ≡ is_given W t (definers_of function.now) }
    ensures { result ≡ wrong_return function.now }
{
    misfit_return(function.blocks.as_slice(), words, function.result)
}

fn misfit_return(blocks: &[Block], words: &[bool], result_class: Option<Class>) -> Option<usize>
    ensures { result ≡ returned_misfit words.now result_class blocks.now }
{
    for block in blocks {
        if let Some((line, value)) = returned(&block.jump) {
            if !result_takes(words, result_class, value) {
                return Some(line);
            }
        }
    }
    None
}

fn result_takes(words: &[bool], result_class: Option<Class>, value: Val) -> bool
    ensures { result ≡ result_takes words.now result_class value }
{
    match result_class {
        Some(class) => value_fits(words, class, value),
        None => false,
    }
}

/// The value that a block returns, with the line of the jump.
fn returned(jump: &Option<Lined<Jump>>) -> Option<(usize, Val)>
    ensures { result ≡ returned_at jump.now }
{
    match jump {
        Some(jump) => match jump.item {
            Jump::Return(Some(value)) => Some((jump.line, value)),
            Jump::Return(None) | Jump::Goto(_) | Jump::Branch { .. } | Jump::Halt => None,
        },
        None => None,
    }
}
