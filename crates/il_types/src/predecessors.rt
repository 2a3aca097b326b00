//! The predecessors of all blocks of a function.
ghost use Rattle.std.specs.Prelude.{◌≡◌, ℕ, ◌++◌, ◌∷◌, [], ◌||◌, cond, nat_eq, OnOk, IfOk};
ghost use Rattle.il_types.specs.Prelude.{jumps_to, row, predecessors_of};

use il_ast::{Block, Jump, Lined, Seq};
use std::alloc::{AllocError, Global};

/// For each label the labels of the blocks whose jump names it.
pub fn predecessors(alloc: Global, blocks: &[Block]) -> Result<Vec<Seq<usize>>, AllocError>
    ensures { IfOk result (λ rows. (l : ℕ) → row rows.items l ≡ predecessors_of l blocks.now) }
{
    let mut rows = Vec::with_capacity(alloc, blocks.len())?;
    for block in blocks {
        add_jump(alloc, &mut rows, &block.jump, block.label.number())?;
    }
    Ok(rows)
}

/// The numbers in a row; none where there is no such row.
pub fn row(rows: &[Seq<usize>], number: usize) -> &[usize]
    ensures { result.now ≡ row rows.now number }
{
    match rows.get(number) {
        Some(found) => found.as_slice(),
        None => &[],
    }
}

/// Adds the block of a label to the rows of the labels that its jump names.
fn add_jump(
    alloc: Global,
    rows: &mut Vec<Seq<usize>>,
    jump: &Option<Lined<Jump>>,
    from: usize,
) -> Result<(), AllocError>
    ensures { OnOk result ((l : ℕ) → row rows.new.items l ≡ row rows.old.items l ++ cond (jumps_to l jump.now) (from ∷ []) []) }
{
    match jump {
        Some(jump) => match jump.item {
            Jump::Goto(target) => add(alloc, rows, target.number(), from),
            Jump::Branch {
                on: _,
                nonzero,
                otherwise,
            } => add_both(alloc, rows, nonzero.number(), otherwise.number(), from),
            Jump::Return(_) | Jump::Halt => Ok(()),
        },
        None => Ok(()),
    }
}

/// Adds a number to two rows, and once where they are the same.
fn add_both(
    alloc: Global,
    rows: &mut Vec<Seq<usize>>,
    one: usize,
    other: usize,
    number: usize,
) -> Result<(), AllocError>
    ensures { OnOk result ((l : ℕ) → row rows.new.items l ≡ row rows.old.items l ++ cond (nat_eq l one || nat_eq l other) (number ∷ []) []) }
{
    add(alloc, rows, one, number)?;
    if one != other {
        add(alloc, rows, other, number)?;
    }
    Ok(())
}

/// Adds a number to a row.
fn add(
    alloc: Global,
    rows: &mut Vec<Seq<usize>>,
    at: usize,
    number: usize,
) -> Result<(), AllocError>
    ensures { OnOk result ((l : ℕ) → row rows.new.items l ≡ row rows.old.items l ++ cond (nat_eq l at) (number ∷ []) []) }
{
    while rows.len() <= at {
        rows.push(Seq::new(alloc))?;
    }
    rows[at].push(number)
}
