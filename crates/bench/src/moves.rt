//! Moves in one cycle.
ghost use Rattle.std.specs.Prelude.{◌≡◌, ◌+◌, ◌<◌, ℕ, nat_lt, if◌then◌else◌, length, slice_index_or, IfOk, All};
ghost use Rattle.phi_copies.specs.declared.moves.Move.{Move};

use phi_copies::moves::Move;
use phi_copies::sequence::sequence;
use std::alloc::{AllocError, Global};

// Move i goes to place i from the place behind it, and the last from place 0.
fn cycle(alloc: Global, count: usize) -> Result<Vec<Move>, AllocError>
    ensures to { IfOk result (λ v. (k : ℕ) (d : Move) → k < length v.items → (slice_index_or v.items k d).to ≡ k) }
    ensures from { IfOk result (λ v. All (λ m. m.from ≡ (if nat_lt (m.to + 1) count then m.to + 1 else 0)) v.items) }
    ensures many { IfOk result (λ v. length v.items ≡ count) }
    ensures inside { IfOk result (λ v. All (λ m. (m.to < count) × (m.from < count)) v.items) }
{
    let mut moves = Vec::new(alloc);
    for to in 0..count {
        let from = if to < count - 1 { to + 1 } else { 0 };
        moves.push(Move { to, from })?;
    }
    Ok(moves)
}

/// How many moves a cycle of `count` becomes.
pub fn moves_in_sequence(alloc: Global, count: usize) -> Result<usize, AllocError> {
    let moves = cycle(alloc, count)?;
    let out = sequence(alloc, &moves, count)?;
    Ok(out.len())
}
