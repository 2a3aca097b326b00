//! What flows into the set of a point.
ghost use Rattle.std.specs.Prelude.{◌≡◌, ◌||◌, ◌&&◌, not, nat_eq, nat_lt, ℕ, [], ◌∷◌, drop, false};
ghost use Rattle.std.specs.List.{list_any};
ghost use Rattle.std.specs.Option.{option_map_or};
ghost use Rattle.bitset.specs.Bits.{is_member};
ghost use Rattle.cfg_live.specs.Rows.{holds, any_holds, flows, AreSized};

use crate::graph::Graph;
use crate::uses::Uses;
use bitset::BitSet;

/// Joins to `set` the set of a point, if there is one.
fn join_point(set: &mut BitSet, rows: &[BitSet], point: usize)
    requires { AreSized set.old.length rows.now }
    ensures length { set.new.length ≡ set.old.length }
    ensures members { (r : ℕ) → is_member set.new r ≡ (is_member set.old r || holds rows.now point r) }
{
    match rows.get(point) {
        Some(row) => {
            set.union_into(row);
        }
        None => {}
    }
}

/// Joins to `set` the sets of these points.
fn join_points(set: &mut BitSet, rows: &[BitSet], points: &[usize])
    requires { AreSized set.old.length rows.now }
    ensures length { set.new.length ≡ set.old.length }
    ensures members { (r : ℕ) → is_member set.new r ≡ (is_member set.old r || any_holds rows.now r points.now) }
{
    for point in points {
        join_point(set, rows, *point);
    }
}

/// Takes a register out of `set`, if it is one of those that the set may have.
fn leave_out(set: &mut BitSet, register: u32)
    ensures length { set.new.length ≡ set.old.length }
    ensures members { (r : ℕ) → is_member set.new r ≡ (is_member set.old r && not (nat_eq register r)) }
{
    if (register as usize) < set.len() {
        set.remove(register as usize);
    }
}

fn leave_out_written(set: &mut BitSet, writes: Option<u32>)
    ensures length { set.new.length ≡ set.old.length }
    ensures members { (r : ℕ) → is_member set.new r ≡ (is_member set.old r && not (option_map_or (λ k. nat_eq k r) writes false)) }
{
    match writes {
        Some(register) => leave_out(set, register),
        None => {}
    }
}

fn take_in(set: &mut BitSet, register: u32)
    ensures length { set.new.length ≡ set.old.length }
    ensures members { (r : ℕ) → is_member set.new r ≡ (is_member set.old r || (nat_lt r set.old.length && nat_eq register r)) }
{
    if (register as usize) < set.len() {
        set.insert(register as usize);
    }
}

fn take_in_all(set: &mut BitSet, registers: &[u32])
    ensures length { set.new.length ≡ set.old.length }
    ensures members { (r : ℕ) → is_member set.new r ≡ (is_member set.old r || (nat_lt r set.old.length && list_any (λ k. nat_eq k r) registers.now)) }
{
    for register in registers {
        take_in(set, *register);
    }
}

/// From right after a point to right before it.
fn pass(set: &mut BitSet, uses: &Uses)
    ensures length { set.new.length ≡ set.old.length }
    ensures members { (r : ℕ) → is_member set.new r ≡ ((is_member set.old r && not (option_map_or (λ k. nat_eq k r) uses.now.writes false)) || (nat_lt r set.old.length && list_any (λ k. nat_eq k r) uses.now.reads)) }
{
    leave_out_written(set, uses.writes);
    take_in_all(set, uses.reads.as_slice());
}

/// Makes `set` what the point has to hold by what the sets behind it have.
pub(crate) fn flow(set: &mut BitSet, rows: &[BitSet], graph: &Graph, point: usize)
    requires { AreSized set.old.length rows.now }
    ensures length { set.new.length ≡ set.old.length }
    ensures members { (r : ℕ) → is_member set.new r ≡ flows graph.now set.old.length rows.now point r }
{
    set.clear();
    match graph.nexts.as_slice().get(point) {
        Some(next) => join_points(set, rows, next.as_slice()),
        None => {}
    }
    match graph.uses.as_slice().get(point) {
        Some(uses) => pass(set, uses),
        None => {}
    }
}
