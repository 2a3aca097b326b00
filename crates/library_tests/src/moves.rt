//! Moves by what they leave in the places, and by their number.

ghost use Rattle.std.specs.Prelude.{IsTrue, All, ◌≢◌};
ghost use Rattle.phi_copies.specs.Together.{HasDistinctDestinations, IsUnnamed};

use crate::same::is_number;
use phi_copies::moves::Move;
use phi_copies::sequence::sequence;
use std::alloc::{AllocError, Global};
use std::fmt::Write;
use std::process::Abort;

fn goes_elsewhere(place: usize, moves: &[Move]) -> bool
    ensures { IsTrue result → All (λ n. place ≢ n.to) moves.now }
{
    moves.iter().all(|n| place != n.to)
}

fn is_distinct(moves: &[Move]) -> bool
    ensures { IsTrue result → HasDistinctDestinations moves.now }
{
    for i in 0..moves.len() {
        let to = moves[i].to;
        if !goes_elsewhere(to, &moves[i + 1..]) {
            return false;
        }
    }
    true
}

fn is_unnamed(place: usize, moves: &[Move]) -> bool
    ensures { IsTrue result → IsUnnamed place moves.now }
{
    moves.iter().all(|m| m.to != place && m.from != place)
}

/// The place that the moves of the tests may use besides.
const SCRATCH: usize = 9;

/// Does the moves in these places, one after another.
fn move_in(places: &mut [usize], moves: &[Move]) {
    for m in moves {
        if m.to < places.len() && m.from < places.len() {
            places[m.to] = places[m.from];
        }
    }
}

/// The place that a digit stands for.
fn place_of(digit: u8) -> usize {
    usize::from(digit.wrapping_sub(b'0'))
}

/// The moves of a text: of each the digits of where it goes to and where it comes from.
fn moves_of(alloc: Global, pairs: &str) -> Result<Vec<Move>, AllocError> {
    let mut moves = Vec::new(alloc);
    for pair in pairs.split_whitespace() {
        if let [to, from] = pair.as_bytes() {
            let (to, from) = (place_of(*to), place_of(*from));
            moves.push(Move { to, from })?;
        }
    }
    Ok(moves)
}

/// What nine places that held their numbers hold after the moves, a digit for each.
fn left_by(alloc: Global, moves: &[Move]) -> Result<String, AllocError> {
    let mut places = [0, 1, 2, 3, 4, 5, 6, 7, 8, 9];
    move_in(&mut places, moves);
    let mut left = String::new(alloc);
    for place in places.iter().take(9) {
        write!(left, "{place}")?;
    }
    Ok(left)
}

fn in_order(
    rt: &impl Abort,
    alloc: Global,
    moves: &[Move],
    scratch: usize,
) -> Result<Vec<Move>, AllocError> {
    assert!(rt; is_distinct(moves));
    assert!(rt; is_unnamed(scratch, moves));
    sequence(alloc, moves, scratch)
}

fn makes(
    pairs: &str,
    want: &str,
    count: usize,
    rt: &(impl Abort + AllocGlobal),
) -> Result<(), AllocError> {
    let moves = moves_of(rt.alloc(), pairs)?;
    let out = in_order(rt, rt.alloc(), moves.as_slice(), SCRATCH)?;
    let left = left_by(rt.alloc(), out.as_slice())?;
    assert_eq!(rt; left.as_str(), want, "{out:?}");
    is_number(rt, out.len(), count);
    Ok(())
}

#[test]
fn small(rt: HostRuntime) -> Result<(), AllocError> {
    makes("", "012345678", 0, &rt)?;
    makes("33", "012345678", 0, &rt)?;
    makes("12", "022345678", 1, &rt)
}

#[test]
fn chains_and_trees(rt: HostRuntime) -> Result<(), AllocError> {
    makes("10 21 32", "001245678", 3, &rt)?;
    makes("32 21 10", "001245678", 3, &rt)?;
    makes("21 31 10 41", "001115678", 4, &rt)?;
    makes("10 21 33 43", "001335678", 3, &rt)
}

#[test]
fn cycles(rt: HostRuntime) -> Result<(), AllocError> {
    makes("01 10", "102345678", 3, &rt)?;
    makes("01 12 20 41 54", "120314678", 6, &rt)?;
    makes("41 12 54 20 01", "120314678", 6, &rt)?;
    makes("01 10 23 32 44", "103245678", 6, &rt)?;
    makes("01 12 23 34 45 56 67 78 80", "123456780", 10, &rt)
}

/// Four thousand moves, each from the place before it, and the first from this place.
fn long_chain(alloc: Global, first: usize) -> Result<Vec<Move>, AllocError> {
    let mut moves = Vec::new(alloc);
    for to in 0..4000usize {
        let from = if to == 0 { first } else { to - 1 };
        moves.push(Move { to, from })?;
    }
    Ok(moves)
}

/// How many of the first four thousand places hold what the one before them held, and the first of them what this place held.
fn shifted(places: &[usize], first: usize) -> usize {
    let held = places.iter().take(4000).enumerate();
    held.filter(|(place, held)| **held == if *place == 0 { first } else { *place - 1 })
        .count()
}

/// What the moves of such a chain leave in five thousand and one places, and how many they become.
fn makes_long(
    first: usize,
    count: usize,
    rt: &(impl Abort + AllocGlobal),
) -> Result<(), AllocError> {
    let moves = long_chain(rt.alloc(), first)?;
    let out = in_order(rt, rt.alloc(), moves.as_slice(), 5000)?;
    let mut places: Vec<usize> = (0..5001).collect(rt.alloc())?;
    move_in(places.as_mut_slice(), out.as_slice());
    is_number(rt, shifted(places.as_slice(), first), 4000);
    is_number(rt, out.len(), count);
    Ok(())
}

/// Four thousand moves round one cycle, and along one chain.
#[test]
fn many(rt: HostRuntime) -> Result<(), AllocError> {
    makes_long(3999, 4001, &rt)?;
    makes_long(4000, 4000, &rt)
}
