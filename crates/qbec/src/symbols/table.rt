//! The symbols of a program.
ghost use Rattle.std.specs.Prelude.{◌≡◌, ◌+◌, ◌-◌, ◌^◌, ◌<◌, ◌≤◌, ◌++◌, length, map, IfOk, OnOk};
ghost use Rattle.il_ast.specs.Prelude.{round_16};
ghost use Rattle.obj_link.specs.Prelude.{code_start, round_to_page, functions_start, object_size, function_addresses, functions_end, objects_end, object_addresses, IsProgram, program, shown};
ghost use Rattle.qbec.specs.Pipeline.{AreWords};
ghost use Rattle.qbec.specs.Symbols.{entry, function_entries, object_entries, symbols_of};

use crate::symbols::symbol::{Kind, Symbol, name_in};
use il_ast::{DataDef, Func, InText};
use il_types::Checked;
use obj_link::linking::limits::object_size;
use obj_link::{CODE_START, Linked, PAGE};
use rv_isa::MachineCode;
use std::alloc::{AllocError, Global};

/// Where the first function stands, behind the start code, `write` and `exit`.
const FUNCTIONS_START: u64 = CODE_START + 48;

/// Adds the functions, and answers where the last one ends.
fn push_functions<'a>(
    found: &mut Vec<Symbol<'a>>,
    texts: &'a [Checked],
    functions: &[InText<&'a Func>],
    codes: &[MachineCode],
) -> Result<u64, AllocError>
    requires one_each { length codes.now ≡ length functions.now }
    requires fits { functions_end functions_start codes.now < 2 ^ 32 }
    ensures pushed { OnOk result (map entry found.new.items ≡ map entry found.old.items
        ++ function_entries texts.now (function_addresses functions_start codes.now) codes.now (map shown functions.now)) }
    ensures end { IfOk result (λ end. end ≡ functions_end functions_start codes.now) }
{
    let mut at = FUNCTIONS_START;
    for k in 0..codes.len() {
        let function = &functions[k];
        let size = 4 * codes[k].words().len() as u64;
        found.push(Symbol {
            address: at,
            size,
            kind: Kind::Function,
            is_exported: function.item.exported,
            name: name_in(texts, function.text, function.item.name),
        })?;
        at += size;
    }
    Ok(at)
}

/// The bytes that a datum takes, with the zeros after it.
fn slot_size(object: &DataDef) -> u64
    requires { round_16 (object_size object.now) < 2 ^ 32 }
    ensures { result ≡ round_16 (object_size object.now) }
{
    object_size(object).div_ceil(16) * 16
}

/// Where the data begin, where the code ends there.
fn data_start(end: u64) -> u64
    requires { (code_start ≤ end) × (end < 2 ^ 32) }
    ensures { result ≡ code_start + round_to_page (end - code_start) }
{
    CODE_START + (end - CODE_START).div_ceil(PAGE) * PAGE
}

/// Adds the data, of which the first stands at `start`.
#[tactic(auto, using(obj_link::proofs::AddressLemmas::addresses_further, obj_link::proofs::AddressLemmas::end_further))]
fn push_objects<'a>(
    found: &mut Vec<Symbol<'a>>,
    texts: &'a [Checked],
    start: u64,
    objects: &[InText<&'a DataDef>],
) -> Result<(), AllocError>
    requires { objects_end start (map shown objects.now) < 2 ^ 32 }
    ensures { OnOk result (map entry found.new.items ≡ map entry found.old.items
        ++ object_entries texts.now (object_addresses start (map shown objects.now)) (map shown objects.now)) }
{
    let mut at = start;
    for object in objects {
        let size = object_size(object.item);
        found.push(Symbol {
            address: at,
            size,
            kind: Kind::Object,
            is_exported: object.item.exported,
            name: name_in(texts, object.text, object.item.name),
        })?;
        at += slot_size(object.item);
    }
    Ok(())
}

/// The functions and the data of a program whose functions have these words, as they stand in its executable: in the order of addresses.
///
/// # Errors
///
/// Only where memory was refused.
pub fn symbols<'a>(
    alloc: Global,
    linked: &Linked<'a>,
    codes: &[MachineCode],
) -> Result<Vec<Symbol<'a>>, AllocError>
    requires program { IsProgram linked.now.texts.now (program linked.now) }
    requires words { AreWords codes.now (program linked.now) }
    ensures { IfOk result (λ v. map entry v.items ≡ symbols_of linked.now.texts.now (program linked.now) codes.now) }
{
    let mut found = Vec::new(alloc);
    let functions = linked.functions.as_slice();
    let end = push_functions(&mut found, linked.texts, functions, codes)?;
    let objects = linked.objects.as_slice();
    push_objects(&mut found, linked.texts, data_start(end), objects)?;
    Ok(found)
}
