//! Moves that are done at once, one after another.

ghost use Rattle.std.specs.Prelude.{◌≡◌, ◌≢◌, ℕ, ◌+◌, ◌/◌, ◌<◌, ◌≤◌, ◌==◌, List, [], ◌∷◌, ◌++◌, Bool, true, false, length, map, reverse as reversed, Some, None, IfOk, OnOk, IfSome, All, slice_set};
ghost use Rattle.std.specs.Ordering.{nat_cmp};
ghost use Rattle.std.specs.BTreeMap.{get};
ghost use Rattle.std.specs.List.{list_any};
ghost use Rattle.phi_copies.specs.Together.{HasDistinctDestinations, IsUnnamed, DoesAtOnce, IsBetween, IsRead, ReadsKnown, proper_count};
ghost use Rattle.phi_copies.specs.Order.{to_of, from_of, is_placed, Given, State, IsFew, at, Way, Seen, IsWritten, Leads, Settled, Keeps, Open, Ends, Sequencing};

use crate::moves::Move;
use std::alloc::{AllocError, Global};
use std::collections::BTreeMap;

/// Which of the moves goes to each destination.
fn writers(alloc: Global, moves: &[Move]) -> Result<BTreeMap<usize, usize>, AllocError>
    ensures { IfOk result (λ m. (place : ℕ) → IsWritten moves.now place (length moves.now) (get nat_cmp m place)) }
{
    let mut writers = BTreeMap::new(alloc);
    for (i, m) in moves.iter().enumerate() {
        writers.insert(m.to, i)?;
    }
    Ok(writers)
}

/// Which of the moves leave their place as it is.
fn selves(alloc: Global, moves: &[Move]) -> Result<Vec<bool>, AllocError>
    ensures { IfOk result (λ v. v.items ≡ map (λ m. m.to == m.from) moves.now) }
{
    moves.iter().map(|m| m.to == m.from).collect(alloc)
}

/// Follows the moves from `start` on, each to the one that writes what it reads, as far as they have
/// not been visited. Answers the visited one at which the way ends, or none.
fn walk(
    moves: &[Move],
    writers: &BTreeMap<usize, usize>,
    start: usize,
    visited: &mut [bool],
    path: &mut Vec<usize>,
) -> Result<Option<usize>, AllocError>
    requires start { start < length moves.now }
    requires size { length visited.old ≡ length moves.now }
    requires empty { path.old.items ≡ [] }
    requires writers { (place : ℕ) → IsWritten moves.now place (length moves.now) (get nat_cmp writers.now place) }
    ensures way { OnOk result (Way moves.now visited.old path.new.items) }
    ensures seen { OnOk result (Seen moves.now visited.new visited.old path.new.items) }
    ensures leads { IfOk result (λ next. Leads moves.now path.new.items next) }
    ensures end { IfOk result (λ next. IfSome next (λ c. (c < length moves.now) × (is_placed visited.new c ≡ true))) }
    ensures started { OnOk result (is_placed visited.new start ≡ true) }
    ensures grown { OnOk result ((i : ℕ) → is_placed visited.old i ≡ true → is_placed visited.new i ≡ true) }
{
    let mut next = start;
    loop {
        if visited[next] {
            return Ok(Some(next));
        }
        path.push(next)?;
        visited[next] = true;
        match writers.get(&moves[next].from) {
            None => return Ok(None),
            Some(writer) => next = *writer,
        }
    }
}

/// Places a move in front of those that are placed.
fn place(
    moves: &[Move],
    i: usize,
    placed: &mut [bool],
    out: &mut Vec<Move>,
) -> Result<(), AllocError>
    requires i { i < length moves.now }
    requires size { length placed.old ≡ length moves.now }
    ensures placed { OnOk result (placed.new ≡ slice_set placed.old i true) }
    ensures out { OnOk result (out.new.items ≡ out.old.items ++ record { to = to_of moves.now i; from = from_of moves.now i } ∷ []) }
{
    out.push(moves[i])?;
    placed[i] = true;
    Ok(())
}

/// Places a move in front of those that are placed, with the scratch place for its source.
fn place_from_scratch(
    moves: &[Move],
    i: usize,
    scratch: usize,
    placed: &mut [bool],
    out: &mut Vec<Move>,
) -> Result<(), AllocError>
    requires i { i < length moves.now }
    requires size { length placed.old ≡ length moves.now }
    ensures placed { OnOk result (placed.new ≡ slice_set placed.old i true) }
    ensures out { OnOk result (out.new.items ≡ out.old.items ++ record { to = to_of moves.now i; from = scratch } ∷ []) }
{
    out.push(Move {
        to: moves[i].to,
        from: scratch,
    })?;
    placed[i] = true;
    Ok(())
}

/// Puts the destination of a move into the scratch place, before those that are placed.
fn save(moves: &[Move], i: usize, scratch: usize, out: &mut Vec<Move>) -> Result<(), AllocError>
    requires { i < length moves.now }
    ensures { OnOk result (out.new.items ≡ out.old.items ++ record { to = scratch; from = to_of moves.now i } ∷ []) }
{
    out.push(Move {
        to: scratch,
        from: moves[i].to,
    })?;
    Ok(())
}

/// Places the moves of a way, whose end reads what no waiting move writes.
fn unwind(
    moves: &[Move],
    placed: &mut [bool],
    path: &mut Vec<usize>,
    out: &mut Vec<Move>,
) -> Result<(), AllocError>
    requires distinct { HasDistinctDestinations moves.now }
    requires size { length placed.old ≡ length moves.now }
    requires way { Way moves.now placed.old path.old.items }
    requires settled { Settled moves.now placed.old path.old.items }
    ensures order { OnOk result (Keeps moves.now placed.old out.old.items placed.new out.new.items) }
    ensures few { OnOk result ((spare : ℕ) → IsFew moves.now placed.old out.old.items spare → IsFew moves.now placed.new out.new.items spare) }
    ensures seen { OnOk result ((visited : List Bool) → Seen moves.now visited placed.old path.old.items → Seen moves.now visited placed.new []) }
    ensures empty { OnOk result (path.new.items ≡ []) }
{
    while let Some(i) = path.pop() {
        place(moves, i, placed, out)?;
    }
    Ok(())
}

/// Places the moves of a way that goes round a cycle from `first` on, down to `first`: the end of the
/// way, which reads what `first` writes, finds that in the scratch place.
fn close(
    moves: &[Move],
    scratch: usize,
    first: usize,
    placed: &mut [bool],
    path: &mut Vec<usize>,
    out: &mut Vec<Move>,
) -> Result<(), AllocError>
    requires given { Given moves.now scratch }
    requires way { Way moves.now placed.old path.old.items }
    requires state { State moves.now scratch None placed.old out.old.items }
    requires few { IsFew moves.now placed.old out.old.items 0 }
    requires leads { Leads moves.now path.old.items (Some first) }
    requires there { (t : ℕ) × (t < length path.old.items) × (at path.old.items t ≡ first) }
    ensures { OnOk result (Open moves.now scratch placed.old path.old.items placed.new path.new.items out.new.items) }
{
    let Some(last) = path.pop() else {
        unreachable!()
    };
    place_from_scratch(moves, last, scratch, placed, out)?;
    while let Some(i) = path.pop() {
        place(moves, i, placed, out)?;
        if i == first {
            save(moves, first, scratch, out)?;
            return Ok(());
        }
    }
    unreachable!()
}

/// Places the moves of a way that ends at a visited move, or at a place that no move writes.
fn place_way(
    moves: &[Move],
    scratch: usize,
    end: Option<usize>,
    placed: &mut [bool],
    path: &mut Vec<usize>,
    out: &mut Vec<Move>,
) -> Result<(), AllocError>
    requires given { Given moves.now scratch }
    requires distinct { HasDistinctDestinations moves.now }
    requires way { Way moves.now placed.old path.old.items }
    requires state { State moves.now scratch None placed.old out.old.items }
    requires few { IsFew moves.now placed.old out.old.items 0 }
    requires leads { Leads moves.now path.old.items end }
    requires end { Ends moves.now placed.old path.old.items end }
    ensures open { OnOk result (Open moves.now scratch placed.old path.old.items placed.new [] out.new.items) }
    ensures empty { OnOk result (path.new.items ≡ []) }
{
    let Some(first) = end else {
        unwind(moves, placed, path, out)?;
        return Ok(());
    };
    if placed[first] {
        unwind(moves, placed, path, out)?;
        return Ok(());
    }
    close(moves, scratch, first, placed, path, out)?;
    unwind(moves, placed, path, out)?;
    Ok(())
}

/// Places all moves.
fn place_all(
    moves: &[Move],
    scratch: usize,
    writers: &BTreeMap<usize, usize>,
    visited: &mut [bool],
    placed: &mut [bool],
    path: &mut Vec<usize>,
    out: &mut Vec<Move>,
) -> Result<(), AllocError>
    requires distinct { HasDistinctDestinations moves.now }
    requires unnamed { IsUnnamed scratch moves.now }
    requires writers { (place : ℕ) → IsWritten moves.now place (length moves.now) (get nat_cmp writers.now place) }
    requires none { Sequencing moves.now scratch visited.old placed.old path.old.items out.old.items 0 }
    ensures { OnOk result (Sequencing moves.now scratch visited.new placed.new path.new.items out.new.items (length moves.now)) }
{
    for start in 0..moves.len() {
        let end = walk(moves, writers, start, visited, path)?;
        place_way(moves, scratch, end, placed, path, out)?;
    }
    Ok(())
}

/// Moves that do at once what these do, one after another, found along the ways on which they read what others write.
fn by_ways(alloc: Global, moves: &[Move], scratch: usize) -> Result<Vec<Move>, AllocError>
    requires distinct { HasDistinctDestinations moves.now }
    requires unnamed { IsUnnamed scratch moves.now }
    ensures at_once { IfOk result (λ v. (env : ℕ → ℕ) → DoesAtOnce moves.now v.items scratch env) }
    ensures between { IfOk result (λ v. All (IsBetween moves.now scratch) v.items) }
    ensures reads { IfOk result (λ v. ReadsKnown (IsRead moves.now) v.items) }
    ensures few { IfOk result (λ v. length v.items ≤ proper_count moves.now + proper_count moves.now / 2) }
{
    let writers = writers(alloc, moves)?;
    let mut visited = selves(alloc, moves)?;
    let mut placed = selves(alloc, moves)?;
    let mut path = Vec::with_capacity(alloc, moves.len())?;
    let mut out = Vec::with_capacity(alloc, moves.len())?;
    place_all(
        moves,
        scratch,
        &writers,
        &mut visited,
        &mut placed,
        &mut path,
        &mut out,
    )?;
    out.reverse();
    Ok(out)
}

/// Of so few moves each is compared with each.
const FEW: usize = 8;

fn is_written(moves: &[Move], place: usize) -> bool
    ensures { result ≡ list_any (λ m. m.to == place) moves.now }
{
    moves.iter().any(|m| m.to == place)
}

/// Whether one of the moves reads what one of them writes.
fn reads_written(moves: &[Move]) -> bool
    ensures { result ≡ list_any (λ n. list_any (λ m. m.to == n.from) moves.now) moves.now }
{
    moves.iter().any(|m| is_written(moves, m.from))
}

fn backward(alloc: Global, moves: &[Move]) -> Result<Vec<Move>, AllocError>
    ensures { IfOk result (λ v. v.items ≡ reversed moves.now) }
{
    let mut out = Vec::from_slice(alloc, moves)?;
    out.reverse();
    Ok(out)
}

/// The same for moves that read nothing that one of them writes: the last comes first.
fn in_any_order(alloc: Global, moves: &[Move], scratch: usize) -> Result<Vec<Move>, AllocError>
    requires distinct { HasDistinctDestinations moves.now }
    requires unhindered { list_any (λ n. list_any (λ m. m.to == n.from) moves.now) moves.now ≡ false }
    ensures at_once { IfOk result (λ v. (env : ℕ → ℕ) → DoesAtOnce moves.now v.items scratch env) }
    ensures between { IfOk result (λ v. All (IsBetween moves.now scratch) v.items) }
    ensures reads { IfOk result (λ v. ReadsKnown (IsRead moves.now) v.items) }
    ensures few { IfOk result (λ v. length v.items ≤ proper_count moves.now + proper_count moves.now / 2) }
{
    let out = backward(alloc, moves)?;
    Ok(out)
}

/// Moves that, done one after another, do what `moves` do at once, with `scratch` for a place that may
/// be used besides. They are at most half as many more; a move of a place to itself is left out, and a
/// cycle goes through the scratch place once. Fails where memory is refused.
pub fn sequence(alloc: Global, moves: &[Move], scratch: usize) -> Result<Vec<Move>, AllocError>
    requires distinct { HasDistinctDestinations moves.now }
    requires unnamed { IsUnnamed scratch moves.now }
    ensures at_once { IfOk result (λ v. (env : ℕ → ℕ) → DoesAtOnce moves.now v.items scratch env) }
    ensures between { IfOk result (λ v. All (IsBetween moves.now scratch) v.items) }
    ensures reads { IfOk result (λ v. ReadsKnown (IsRead moves.now) v.items) }
    ensures few { IfOk result (λ v. length v.items ≤ proper_count moves.now + proper_count moves.now / 2) }
{
    if moves.is_empty() {
        return Ok(Vec::new(alloc));
    }
    if moves.len() <= FEW && !reads_written(moves) {
        in_any_order(alloc, moves, scratch)
    } else {
        by_ways(alloc, moves, scratch)
    }
}
