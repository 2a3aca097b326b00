//! What is known of temporaries from their mentions, in order.
ghost use Rattle.std.specs.Prelude.{◌≡◌, ℕ, nat_eq, if◌then◌else◌, IfOk, OnOk};
ghost use Rattle.promote.specs.Uses.{roles, same_size, seen, seen_all, width, standing_at};
ghost use Rattle.promote.specs.declared.standing.Standing.TheVariants.{Unseen as NotSeen};

use crate::mention::{Mention, Role};
use il_ast::Size;
use std::alloc::{AllocError, Global};

/// What is known of a temporary from its mentions so far.
#[derive(Clone, Copy)]
pub enum Standing {
    /// it wasn't mentioned
    Unseen,
    /// it was made, and never accessed
    Unused,
    /// it was made, and accessed at this size alone
    Kept(Size),
    /// it can't be promoted
    Refused,
}

/// What is known of each temporary from these mentions. A temporary past the end was never mentioned.
pub fn standings(alloc: Global, mentions: &[Mention]) -> Result<Vec<Standing>, AllocError>
    ensures { IfOk result (λ table. (t : ℕ) → standing_at table.items t ≡ seen_all NotSeen (roles t mentions.now)) }
{
    let mut table = Vec::with_capacity(alloc, mentions.len() / 2)?;
    for mention in mentions {
        note(&mut table, *mention)?;
    }
    Ok(table)
}

/// Takes one more mention into account.
fn note(table: &mut Vec<Standing>, mention: Mention) -> Result<(), AllocError>
    ensures { OnOk result ((t : ℕ) → standing_at table.new.items t ≡ (if nat_eq mention.temp t then seen (standing_at table.old.items t) mention.role else standing_at table.old.items t)) }
{
    let number = mention.temp.number();
    while table.len() <= number {
        table.push(Standing::Unseen)?;
    }
    table[number] = seen(table[number], mention.role);
    Ok(())
}

/// What is known after one more mention.
fn seen(standing: Standing, role: Role) -> Standing
    ensures { result ≡ seen standing role }
{
    match (standing, role) {
        (Standing::Unseen, Role::Made) => Standing::Unused,
        (Standing::Unused, Role::Made) => Standing::Unused,
        (Standing::Unused, Role::Accessed(size)) => Standing::Kept(size),
        (Standing::Kept(size), Role::Made) => Standing::Kept(size),
        (Standing::Kept(size), Role::Accessed(other)) => {
            if same_size(other, size) {
                Standing::Kept(size)
            } else {
                Standing::Refused
            }
        }
        _ => Standing::Refused,
    }
}

fn same_size(one: Size, other: Size) -> bool
    ensures { result ≡ same_size one other }
{
    match (one, other) {
        (Size::Byte, Size::Byte) => true,
        (Size::Half, Size::Half) => true,
        (Size::Word, Size::Word) => true,
        (Size::Long, Size::Long) => true,
        _ => false,
    }
}

/// What is known of a temporary.
fn standing_at(table: &[Standing], number: usize) -> Standing
    ensures { result ≡ standing_at table.now number }
{
    match table.get(number) {
        Some(standing) => *standing,
        None => Standing::Unseen,
    }
}

/// The width of a temporary, where it can be promoted.
pub fn width_at(table: &[Standing], number: usize) -> Option<Size>
    ensures { result ≡ width (standing_at table.now number) }
{
    match standing_at(table, number) {
        Standing::Unseen | Standing::Refused => None,
        Standing::Unused => Some(Size::Byte),
        Standing::Kept(size) => Some(size),
    }
}
