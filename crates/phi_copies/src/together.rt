//! Copies that are to be done at once, one after another.
ghost use Rattle.std.specs.Prelude.{◌≡◌, ◌+◌, ◌≤◌, ◌++◌, length, map, IfOk, OnOk};
ghost use Rattle.il_ast.specs.declared.limits.TheConstants.{FUNCTION_WEIGHT, TEMPORARIES};
ghost use Rattle.il_ast.specs.declared.operation.Class.{Class as ClassOf};
ghost use Rattle.phi_copies.specs.Together.{HasDistinctDestinations, IsUnnamed, move_of, moves_in, copy_of, rest_of, first_in, AddsMoves, IsInOrder};

use crate::ending::Assignment;
use crate::moves::Move;
use crate::sequence::sequence;
use il_ast::{Class, Dest, Temp, Val};
use std::alloc::{AllocError, Global};

/// The copy, if it goes between two temporaries.
fn move_of(copy: &Assignment) -> Option<Move>
    ensures { result ≡ move_of copy.now }
{
    match copy.value {
        Val::Temp(from) => {
            let to = copy.to.temp.number();
            let from = from.number();
            if from == to {
                None
            } else {
                Some(Move { to, from })
            }
        }
        Val::Int(_) => None,
        Val::Global(_) => None,
    }
}

/// The moves of a class between two temporaries.
pub(crate) fn moves_in(
    alloc: Global,
    class: Class,
    copies: &[Assignment],
) -> Result<Vec<Move>, AllocError>
    ensures { IfOk result (λ moves. moves.items ≡ moves_in class copies.now) }
{
    let mut moves = Vec::new(alloc);
    for copy in copies {
        if copy.to.class == class {
            if let Some(m) = move_of(copy) {
                moves.push(m)?;
            }
        }
    }
    Ok(moves)
}

/// The number of the first copy of a class, where they are numbered from `number` on.
pub(crate) fn first_in(class: Class, number: usize, copies: &[Assignment]) -> usize
    requires { number + length copies.now ≤ FUNCTION_WEIGHT + TEMPORARIES }
    ensures { result ≡ first_in class number copies.now }
{
    let mut number = number;
    for copy in copies {
        if copy.to.class == class {
            return number;
        }
        number += 1;
    }
    number
}

/// Puts moves of a class behind the copies.
fn push_moves(class: Class, moves: &[Move], out: &mut Vec<Assignment>) -> Result<(), AllocError>
    ensures { OnOk result (out.new.items ≡ out.old.items ++ map (copy_of class) moves.now) }
{
    for m in moves {
        out.push(Assignment {
            to: Dest {
                temp: Temp::at(m.to),
                class,
            },
            value: Val::Temp(Temp::at(m.from)),
        })?;
    }
    Ok(())
}

/// Puts the moves of a class behind the copies, in an order that does them at once.
fn push_class(
    alloc: Global,
    class: Class,
    scratch: usize,
    copies: &[Assignment],
    out: &mut Vec<Assignment>,
) -> Result<(), AllocError>
    requires distinct { HasDistinctDestinations (moves_in class copies.now) }
    requires unnamed { IsUnnamed scratch (moves_in class copies.now) }
    ensures { OnOk result (AddsMoves class scratch copies.now out.old.items out.new.items) }
{
    let moves = moves_in(alloc, class, copies)?;
    let ordered = sequence(alloc, &moves, scratch)?;
    push_moves(class, &ordered, out)?;
    Ok(())
}

/// Puts the copies that are no moves between two temporaries behind the others.
fn push_rest(copies: &[Assignment], out: &mut Vec<Assignment>) -> Result<(), AllocError>
    ensures { OnOk result (out.new.items ≡ out.old.items ++ rest_of copies.now) }
{
    for copy in copies {
        match move_of(copy) {
            Some(_) => {}
            None => out.push(*copy)?,
        }
    }
    Ok(())
}

/// The copies, in an order that does them at once: first the moves of words, then those of longs,
/// then the rest. The temporaries that they may use besides are numbered from `number` on, one for
/// each of them.
pub fn in_order(
    alloc: Global,
    number: usize,
    copies: &[Assignment],
) -> Result<Vec<Assignment>, AllocError>
    requires few { number + length copies.now ≤ FUNCTION_WEIGHT + TEMPORARIES }
    requires distinct { (k : ClassOf) → HasDistinctDestinations (moves_in k copies.now) }
    requires unnamed { (k : ClassOf) → IsUnnamed (first_in k number copies.now) (moves_in k copies.now) }
    ensures { IfOk result (λ out. IsInOrder number copies.now out.items) }
{
    let mut out = Vec::new(alloc);
    push_class(
        alloc,
        Class::W,
        first_in(Class::W, number, copies),
        copies,
        &mut out,
    )?;
    push_class(
        alloc,
        Class::L,
        first_in(Class::L, number, copies),
        copies,
        &mut out,
    )?;
    push_rest(copies, &mut out)?;
    Ok(out)
}
