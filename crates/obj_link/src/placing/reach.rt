//! Whether calls reach their functions.

ghost use Rattle.std.specs.Prelude.{◌≡◌, ◌+◌, ◌*◌, ◌^◌, ◌<◌, ◌≤◌, ◌&&◌, nat_le, nat_lt, drop, length, map};
ghost use Rattle.rv_isa.specs.Prelude.{all_reach, reaches};
ghost use Rattle.obj_link.specs.Prelude.{shown, functions_end, name_address, functions_reach};

use crate::placing::addresses::{Addresses, meaning, target_address};
use il_ast::{Func, InText, Seq, Target};
use rv_isa::{Filling, Hole, MachineCode};

/// How far `jal` reaches either way, in bytes, by the J-type format.
const REACH: u64 = 1 << 20;

/// Words that are so far from an address of 32 bits are out of its reach.
const FAR: usize = 1 << 32;

/// Whether `jal`, so many words behind `at`, reaches an address.
fn jump_reaches(at: u32, word: usize, address: u32) -> bool
    ensures { result ≡ (nat_le (at + 4 * word) (address + 2 ^ 20) && nat_lt address (at + 4 * word + 2 ^ 20)) }
{
    if word >= FAR {
        return false;
    }
    let place = u64::from(at) + 4 * word as u64;
    let address = u64::from(address);
    place <= address + REACH && address < place + REACH
}

fn hole_reaches(at: u32, hole: &Hole, address: u32) -> bool
    ensures { result ≡ reaches hole.now.filling (at + 4 * hole.now.word) address }
{
    match hole.filling {
        Filling::Part(_) => true,
        Filling::Call(_) => jump_reaches(at, hole.word, address),
    }
}

/// Whether all holes of words that stand from `at` on reach the addresses of the names of text `text`.
fn all_reach(
    at: u32,
    addresses: &Addresses,
    targets: &[Seq<Target>],
    text: usize,
    holes: &[Hole],
) -> bool
    ensures { result ≡ all_reach at (name_address addresses.now targets.now text) holes.now }
{
    for hole in holes {
        let target = meaning(targets, text, hole.filling.global());
        if !hole_reaches(at, hole, target_address(addresses, target)) {
            return false;
        }
    }
    true
}

/// Whether the calls of all functions, the first of which stands at `start`, reach their functions.
#[tactic(auto, using(crate::proofs::CodeLemmas::reach_further, crate::proofs::CodeLemmas::end_further, crate::proofs::AddressLemmas::functions_rise))]
pub fn functions_reach(
    start: u32,
    addresses: &Addresses,
    targets: &[Seq<Target>],
    codes: &[MachineCode],
    functions: &[InText<&Func>],
) -> bool
    requires one_each { length codes.now ≡ length functions.now }
    requires fits { functions_end start codes.now < 2 ^ 32 }
    ensures { result ≡ functions_reach addresses.now targets.now start codes.now (map shown functions.now) }
{
    let mut at = start;
    for (number, code) in codes.iter().enumerate() {
        let text = functions[number].text;
        if !all_reach(at, addresses, targets, text, code.holes()) {
            return false;
        }
        at += 4 * code.words().len() as u32;
    }
    true
}
