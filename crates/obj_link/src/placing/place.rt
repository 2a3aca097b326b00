//! The image of a program.

ghost use Rattle.std.specs.Prelude.{◌≡◌, ◌≤◌, ◌<◌, ◌^◌, length, map, IfOk, MatchResult, flat_map};
ghost use Rattle.obj_link.specs.declared.linking.error.LinkError.TheVariants.{Memory};
ghost use Rattle.obj_link.specs.Prelude.{program, slot_bytes, addresses_of, objects_start, code_of, contents_of, calls_reach, FitsBelow, EveryCode};

use crate::linking::error::LinkError;
use crate::linking::linked::Linked;
use crate::placing::addresses::{
    Addresses, FUNCTIONS, callee_address, function_addresses, functions_end, object_addresses,
};
use crate::placing::data_bytes::push_objects;
use crate::placing::fill::push_functions;
use crate::placing::image::{CODE_START, Image, PAGE};
use crate::placing::natives::{push_natives, push_start};
use crate::placing::reach::functions_reach;
use il_ast::{Callee, Seq};
use rv_isa::MachineCode;
use std::alloc::{AllocError, Global};

const START: u32 = CODE_START as u32;

const PAGE_SIZE: u32 = PAGE as u32;

/// Where the data begin.
#[tactic(auto, using(crate::proofs::ImageLemmas::ends))]
fn objects_start(codes: &[MachineCode], linked: &Linked) -> u32
    requires { FitsBelow (program linked.now) codes.now }
    ensures value { result ≡ objects_start codes.now }
    ensures codes { EveryCode codes.now }
{
    let end = functions_end(FUNCTIONS, codes);
    START + (end - START).div_ceil(PAGE_SIZE) * PAGE_SIZE
}

#[tactic(auto, using(crate::proofs::ImageLemmas::ends))]
fn addresses_of(
    alloc: Global,
    start: u32,
    codes: &[MachineCode],
    linked: &Linked,
) -> Result<Addresses, AllocError>
    requires start { start ≡ objects_start codes.now }
    requires fits { FitsBelow (program linked.now) codes.now }
    ensures { IfOk result (λ a. a ≡ addresses_of (program linked.now) codes.now) }
{
    let functions = function_addresses(alloc, FUNCTIONS, codes)?;
    let objects = object_addresses(alloc, start, linked.objects.as_slice())?;
    Ok(Addresses {
        functions: Seq::from_vec(functions),
        objects: Seq::from_vec(objects),
    })
}

#[tactic(auto, using(crate::proofs::ImageLemmas::ends))]
fn code_of(
    alloc: Global,
    addresses: &Addresses,
    codes: &[MachineCode],
    linked: &Linked,
) -> Result<Vec<u32>, AllocError>
    requires one_each { length codes.now ≡ length linked.now.functions }
    requires fits { FitsBelow (program linked.now) codes.now }
    ensures { IfOk result (λ words. words.items ≡ code_of addresses.now (program linked.now) codes.now) }
{
    let mut words = Vec::new(alloc);
    let main = callee_address(addresses, Callee::Defined(linked.main));
    push_start(&mut words, main)?;
    push_natives(&mut words)?;
    let targets = linked.targets.as_slice();
    let functions = linked.functions.as_slice();
    push_functions(
        alloc, &mut words, FUNCTIONS, addresses, targets, codes, functions,
    )?;
    Ok(words)
}

fn data_of(alloc: Global, addresses: &Addresses, linked: &Linked) -> Result<Vec<u8>, AllocError>
    ensures { IfOk result (λ bytes. bytes.items ≡ flat_map (slot_bytes addresses.now linked.now.targets) (program linked.now).objects) }
{
    let mut bytes = Vec::new(alloc);
    push_objects(
        &mut bytes,
        addresses,
        linked.targets.as_slice(),
        linked.objects.as_slice(),
    )?;
    Ok(bytes)
}

fn image_of(alloc: Global, codes: &[MachineCode], linked: &Linked) -> Result<Image, AllocError>
    requires one_each { length codes.now ≡ length linked.now.functions }
    requires fits { FitsBelow (program linked.now) codes.now }
    ensures { IfOk result (λ image. image ≡ contents_of (program linked.now) codes.now) }
{
    let start = objects_start(codes, linked);
    let addresses = addresses_of(alloc, start, codes, linked)?;
    image_at(alloc, &addresses, codes, linked)
}

/// The image, where functions and data stand at these addresses.
fn image_at(
    alloc: Global,
    addresses: &Addresses,
    codes: &[MachineCode],
    linked: &Linked,
) -> Result<Image, AllocError>
    requires one_each { length codes.now ≡ length linked.now.functions }
    requires fits { FitsBelow (program linked.now) codes.now }
    requires codes { EveryCode codes.now }
    requires addresses { addresses.now ≡ addresses_of (program linked.now) codes.now }
    ensures { IfOk result (λ image. image ≡ contents_of (program linked.now) codes.now) }
{
    let words = code_of(alloc, addresses, codes, linked)?;
    let bytes = data_of(alloc, addresses, linked)?;
    Ok(Image::new(words, bytes))
}

/// The image of a linked program whose functions have these words, in order.
///
/// There must be one code for each function, and all must fit below [`crate::IMAGE_END`]. The code begins with the start
/// code, `write` and `exit`; the functions and the data follow at their addresses, with names filled in. `LinkError::Memory` says
/// that memory was refused; there is no other error.
pub fn place<'a>(
    alloc: Global,
    codes: &[MachineCode],
    linked: &'a Linked<'a>,
) -> Result<Image, LinkError<'a>>
    requires one_each { length codes.now ≡ length linked.now.functions }
    requires fits { FitsBelow (program linked.now) codes.now }
    ensures { MatchResult result (λ image. image ≡ contents_of (program linked.now) codes.now) (λ error. error ≡ Memory) }
{
    match image_of(alloc, codes, linked) {
        Ok(image) => Ok(image),
        Err(_) => Err(LinkError::Memory),
    }
}

/// Whether, in the image of a linked program whose functions have these words, in order, all calls by `jal` reach their functions.
///
/// There must be one code for each function, and all must fit below [`crate::IMAGE_END`]. Memory is all that can be wanting.
#[tactic(auto, using(crate::proofs::ImageLemmas::ends))]
pub fn calls_reach(
    alloc: Global,
    codes: &[MachineCode],
    linked: &Linked<'_>,
) -> Result<bool, AllocError>
    requires one_each { length codes.now ≡ length linked.now.functions }
    requires fits { FitsBelow (program linked.now) codes.now }
    ensures { IfOk result (λ all. all ≡ calls_reach (program linked.now) codes.now) }
{
    let start = objects_start(codes, linked);
    let addresses = addresses_of(alloc, start, codes, linked)?;
    let targets = linked.targets.as_slice();
    let functions = linked.functions.as_slice();
    Ok(functions_reach(FUNCTIONS, &addresses, targets, codes, functions))
}
