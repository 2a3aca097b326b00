//! The words of functions, with addresses filled in.

ghost use Rattle.std.specs.Prelude.{◌≡◌, ◌++◌, ◌+◌, ◌*◌, ◌^◌, ◌<◌, ◌≤◌, drop, length, map, OnOk};
ghost use Rattle.rv_isa.specs.Prelude.{fill, filled};
ghost use Rattle.obj_link.specs.Prelude.{shown, functions_end, name_address, functions_words};

use crate::placing::addresses::{Addresses, meaning, target_address};
use il_ast::{Func, InText, Seq, Target};
use rv_isa::{Hole, MachineCode};
use std::alloc::{AllocError, Global};

/// Fills an address into the hole of words that stand from `at` on.
fn fill(words: &mut [u32], at: u32, hole: &Hole, address: u32)
    requires { at + 4 * length words.old < 2 ^ 32 }
    ensures { words.new ≡ fill at (λ n. address) words.old hole.now }
{
    if hole.word < words.len() {
        let place = at + 4 * hole.word as u32;
        words[hole.word] = hole.filling.word(place, address);
    }
}

/// Fills the addresses of the names of text `text` into holes of words that stand from `at` on.
fn fill_all(
    words: &mut [u32],
    at: u32,
    addresses: &Addresses,
    targets: &[Seq<Target>],
    text: usize,
    holes: &[Hole],
)
    requires { at + 4 * length words.old < 2 ^ 32 }
    ensures { words.new ≡ filled at (name_address addresses.now targets.now text) words.old holes.now }
{
    for hole in holes {
        let target = meaning(targets, text, hole.filling.global());
        fill(words, at, hole, target_address(addresses, target));
    }
}

/// Puts at the end the words of a function that stands from `at` on.
fn push_function(
    alloc: Global,
    words: &mut Vec<u32>,
    at: u32,
    addresses: &Addresses,
    targets: &[Seq<Target>],
    text: usize,
    code: &MachineCode,
) -> Result<(), AllocError>
    requires { at + 4 * length code.now.words < 2 ^ 32 }
    ensures { OnOk result (words.new.items ≡ words.old.items ++ filled at (name_address addresses.now targets.now text) code.now.words code.now.holes) }
{
    let mut own = code.words().to_vec(alloc)?;
    fill_all(
        own.as_mut_slice(),
        at,
        addresses,
        targets,
        text,
        code.holes(),
    );
    words.extend_from_slice(own.as_slice())
}

/// Puts at the end the words of all functions, the first of which stands at `start`.
#[tactic(auto, using(crate::proofs::CodeLemmas::functions_further, crate::proofs::CodeLemmas::end_further, crate::proofs::AddressLemmas::functions_rise))]
pub fn push_functions(
    alloc: Global,
    words: &mut Vec<u32>,
    start: u32,
    addresses: &Addresses,
    targets: &[Seq<Target>],
    codes: &[MachineCode],
    functions: &[InText<&Func>],
) -> Result<(), AllocError>
    requires one_each { length codes.now ≡ length functions.now }
    requires fits { functions_end start codes.now < 2 ^ 32 }
    ensures { OnOk result (words.new.items ≡ words.old.items ++ functions_words addresses.now targets.now start codes.now (map shown functions.now)) }
{
    let mut at = start;
    for (number, code) in codes.iter().enumerate() {
        let text = functions[number].text;
        push_function(alloc, words, at, addresses, targets, text, code)?;
        at += 4 * code.words().len() as u32;
    }
    Ok(())
}
