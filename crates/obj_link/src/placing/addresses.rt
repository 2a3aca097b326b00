//! Where functions and data stand.

ghost use Rattle.std.specs.Prelude.{◌≡◌, ◌+◌, ◌*◌, ◌^◌, ◌<◌, ◌≤◌, ◌++◌, drop, length, map, slice_index, IfOk};
ghost use Rattle.obj_link.specs.Prelude.{shown, object_size, write_address, exit_address, function_addresses, functions_end, objects_end, target_address, meaning, EveryCode, object_addresses, callee_address};
ghost use Rattle.il_ast.specs.Prelude.{round_16};

use crate::linking::limits::object_size;
use crate::placing::image::CODE_START;
use il_ast::{Callee, DataDef, InText, Seq, Target};
use rv_isa::MachineCode;
use std::alloc::{AllocError, Global};

/// Where each function and each datum of a program stands.
#[derive(Drop)]
pub struct Addresses {
    pub functions: Seq<u32>,
    pub objects: Seq<u32>,
}

/// Where `write` and `exit` stand, and the first function.
pub const WRITE: u32 = CODE_START as u32 + 28;

pub const EXIT: u32 = CODE_START as u32 + 40;

pub const FUNCTIONS: u32 = CODE_START as u32 + 48;

/// The addresses of functions of these words, the first of which stands at `start`.
#[tactic(auto, using(crate::proofs::AddressLemmas::functions_rise))]
pub fn function_addresses(
    alloc: Global,
    start: u32,
    codes: &[MachineCode],
) -> Result<Vec<u32>, AllocError>
    requires { functions_end start codes.now < 2 ^ 32 }
    ensures { IfOk result (λ v. v.items ≡ function_addresses start codes.now) }
{
    let mut found = Vec::new(alloc);
    let mut at = start;
    for code in codes {
        found.push(at)?;
        at += 4 * code.words().len() as u32;
    }
    Ok(found)
}

/// Where the last one ends.
#[tactic(auto, using(crate::proofs::AddressLemmas::functions_rise))]
pub fn functions_end(start: u32, codes: &[MachineCode]) -> u32
    requires { functions_end start codes.now < 2 ^ 32 }
    ensures value { result ≡ functions_end start codes.now }
    ensures codes { EveryCode codes.now }
{
    let mut at = start;
    for code in codes {
        at += 4 * code.words().len() as u32;
    }
    at
}

/// The bytes that a datum takes, with the zeros after it.
fn slot_size(object: &DataDef) -> u32
    requires { round_16 (object_size object.now) < 2 ^ 32 }
    ensures { result ≡ round_16 (object_size object.now) }
{
    (object_size(object).div_ceil(16) * 16) as u32
}

/// The addresses of data, the first of which stands at `start`.
#[tactic(auto, using(crate::proofs::AddressLemmas::objects_rise, crate::proofs::AddressLemmas::addresses_further, crate::proofs::AddressLemmas::end_further))]
pub fn object_addresses(
    alloc: Global,
    start: u32,
    objects: &[InText<&DataDef>],
) -> Result<Vec<u32>, AllocError>
    requires { objects_end start (map shown objects.now) < 2 ^ 32 }
    ensures { IfOk result (λ v. v.items ≡ object_addresses start (map shown objects.now)) }
{
    let mut found = Vec::new(alloc);
    let mut at = start;
    for object in objects {
        found.push(at)?;
        at += slot_size(object.item);
    }
    Ok(found)
}

fn address_in(addresses: &[u32], number: usize) -> u32
    ensures { result ≡ slice_index addresses.now number }
{
    match addresses.get(number) {
        Some(address) => *address,
        None => 0,
    }
}

/// The address of a function.
pub fn callee_address(addresses: &Addresses, callee: Callee) -> u32
    ensures { result ≡ callee_address addresses.now callee }
{
    match callee {
        Callee::Defined(number) => address_in(addresses.functions.as_slice(), number),
        Callee::SystemWrite => WRITE,
        Callee::SystemExit => EXIT,
    }
}

/// The address of a datum.
pub fn object_address(addresses: &Addresses, number: usize) -> u32
    ensures { result ≡ slice_index addresses.now.objects number }
{
    address_in(addresses.objects.as_slice(), number)
}

/// The address of what a name means, or 0 where it means nothing.
pub fn target_address(addresses: &Addresses, target: Option<Target>) -> u32
    ensures { result ≡ target_address addresses.now target }
{
    match target {
        None => 0,
        Some(Target::Code(callee)) => callee_address(addresses, callee),
        Some(Target::Object(number)) => object_address(addresses, number),
    }
}

/// What name `symbol` of text `text` means.
pub fn meaning(targets: &[Seq<Target>], text: usize, symbol: usize) -> Option<Target>
    ensures { result ≡ meaning targets.now text symbol }
{
    match targets.get(text) {
        Some(names) => names.as_slice().get(symbol).copied(),
        None => None,
    }
}
