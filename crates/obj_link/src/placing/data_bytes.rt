//! The bytes of data, with addresses filled in.

ghost use Rattle.std.specs.Prelude.{◌≡◌, ◌++◌, ◌+◌, ◌-◌, ◌*◌, ◌%◌, ◌<◌, drop, length, map, replicate, OnOk, flat_map};
ghost use Rattle.std.specs.Int.{w64, to_le_bytes};
ghost use Rattle.il_ast.specs.Prelude.{bytes_of, byte_count, round_16};
ghost use Rattle.obj_link.specs.Prelude.{shown, in_slots, address_bytes, item_bytes, field_bytes, slot_bytes};

use crate::placing::addresses::{Addresses, callee_address, meaning, object_address};
use il_ast::{DataDef, Field, InText, Item, Seq, Size, Target};
use std::alloc::AllocError;

#[tactic(auto, using(crate::proofs::DataLemmas::zeros_more))]
fn push_zeros(bytes: &mut Vec<u8>, count: u64) -> Result<(), AllocError>
    ensures { OnOk result (bytes.new.items ≡ bytes.old.items ++ replicate count 0) }
{
    for done in 0..count {
        bytes.push(0)?;
    }
    Ok(())
}

/// The eight bytes of a number, lowest first.
fn push_long(bytes: &mut Vec<u8>, number: u64) -> Result<(), AllocError>
    ensures { OnOk result (bytes.new.items ≡ bytes.old.items ++ to_le_bytes w64 number) }
{
    bytes.extend_from_slice(&number.to_le_bytes())
}

/// The low bytes of a number, lowest first.
#[tactic(auto, using(crate::proofs::DataLemmas::bytes_of_long, crate::proofs::DataLemmas::bytes_of_word, crate::proofs::DataLemmas::bytes_of_half, crate::proofs::DataLemmas::bytes_of_byte))]
fn push_low(bytes: &mut Vec<u8>, size: Size, number: u64) -> Result<(), AllocError>
    ensures { OnOk result (bytes.new.items ≡ bytes.old.items ++ bytes_of (byte_count size) number) }
{
    let all = number.to_le_bytes();
    match size {
        Size::Byte => bytes.extend_from_slice(&all[..1]),
        Size::Half => bytes.extend_from_slice(&all[..2]),
        Size::Word => bytes.extend_from_slice(&all[..4]),
        Size::Long => bytes.extend_from_slice(&all),
    }
}

fn push_address(
    bytes: &mut Vec<u8>,
    addresses: &Addresses,
    target: Option<Target>,
    offset: u64,
) -> Result<(), AllocError>
    ensures { OnOk result (bytes.new.items ≡ bytes.old.items ++ address_bytes addresses.now target offset) }
{
    match target {
        None => push_zeros(bytes, 8),
        Some(Target::Code(callee)) => if offset == 0 {
            push_long(bytes, u64::from(callee_address(addresses, callee)))
        } else {
            push_zeros(bytes, 8)
        },
        Some(Target::Object(number)) => {
            let start = u64::from(object_address(addresses, number));
            push_long(bytes, start.wrapping_add(offset))
        }
    }
}

fn push_item(
    bytes: &mut Vec<u8>,
    addresses: &Addresses,
    targets: &[Seq<Target>],
    text: usize,
    size: Size,
    item: &Item,
) -> Result<(), AllocError>
    ensures { OnOk result (bytes.new.items ≡ bytes.old.items ++ item_bytes addresses.now targets.now text size item.now) }
{
    match item {
        Item::Int(number) => push_low(bytes, size, *number),
        Item::Bytes(string) => bytes.extend_from_slice(string.as_slice()),
        Item::Address { symbol, offset } => {
            let target = meaning(targets, text, symbol.number());
            push_address(bytes, addresses, target, *offset)
        }
    }
}

fn push_items(
    bytes: &mut Vec<u8>,
    addresses: &Addresses,
    targets: &[Seq<Target>],
    text: usize,
    size: Size,
    items: &[Item],
) -> Result<(), AllocError>
    ensures { OnOk result (bytes.new.items ≡ bytes.old.items ++ flat_map (item_bytes addresses.now targets.now text size) items.now) }
{
    for item in items {
        push_item(bytes, addresses, targets, text, size, item)?;
    }
    Ok(())
}

fn push_field(
    bytes: &mut Vec<u8>,
    addresses: &Addresses,
    targets: &[Seq<Target>],
    text: usize,
    field: &Field,
) -> Result<(), AllocError>
    ensures { OnOk result (bytes.new.items ≡ bytes.old.items ++ field_bytes addresses.now targets.now text field.now) }
{
    match field {
        Field::Items { size, items } => {
            push_items(bytes, addresses, targets, text, *size, items.as_slice())
        }
        Field::Zeros(count) => push_zeros(bytes, *count),
    }
}

fn push_fields(
    bytes: &mut Vec<u8>,
    addresses: &Addresses,
    targets: &[Seq<Target>],
    text: usize,
    fields: &[Field],
) -> Result<(), AllocError>
    ensures { OnOk result (bytes.new.items ≡ bytes.old.items ++ flat_map (field_bytes addresses.now targets.now text) fields.now) }
{
    for field in fields {
        push_field(bytes, addresses, targets, text, field)?;
    }
    Ok(())
}

/// How many zeros follow so many bytes, up to a multiple of 16.
fn padding(size: usize) -> u64
    ensures { result ≡ round_16 size - size }
{
    ((16 - size % 16) % 16) as u64
}

#[tactic(auto, unfolding(crate::specs::Placed::in_slots))]
fn push_object(
    bytes: &mut Vec<u8>,
    addresses: &Addresses,
    targets: &[Seq<Target>],
    object: &InText<&DataDef>,
) -> Result<(), AllocError>
    ensures { OnOk result (bytes.new.items ≡ bytes.old.items ++ slot_bytes addresses.now targets.now (shown object.now)) }
{
    let start = bytes.len();
    push_fields(
        bytes,
        addresses,
        targets,
        object.text,
        object.item.fields.as_slice(),
    )?;
    let size = bytes.len() - start;
    push_zeros(bytes, padding(size))
}

/// Puts the data of a program at the end, each datum with zeros up to a multiple of 16.
pub fn push_objects(
    bytes: &mut Vec<u8>,
    addresses: &Addresses,
    targets: &[Seq<Target>],
    objects: &[InText<&DataDef>],
) -> Result<(), AllocError>
    ensures { OnOk result (bytes.new.items ≡ bytes.old.items ++ flat_map (slot_bytes addresses.now targets.now) (map shown objects.now)) }
{
    for object in objects {
        push_object(bytes, addresses, targets, object)?;
    }
    Ok(())
}
