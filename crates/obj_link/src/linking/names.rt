//! The global names that texts define, and what each definition gives its name.
ghost use Rattle.std.specs.Prelude.{◌≡◌, ◌++◌, map, OnOk, IfOk, flat_map};
ghost use Rattle.obj_link.specs.Prelude.{shown, function_in, object_in, functions_of, objects_of, names_of_functions, names_of_objects};

use il_ast::{Callee, DataDef, Definition, Func, InText, Symbol, Target};
use il_types::Checked;
use std::alloc::{AllocError, Global};

/// A definition of a global name: the text that it stands in, the name's number there, whether it is
/// exported, and what it gives the name.
#[derive(Clone, Copy)]
pub struct GlobalName {
    pub text: usize,
    pub symbol: Symbol,
    pub exported: bool,
    pub target: Target,
}

/// All functions of texts, in order of texts and definitions.
pub fn functions<'a>(
    alloc: Global,
    texts: &'a [Checked],
) -> Result<Vec<InText<&'a Func>>, AllocError>
    ensures { IfOk result (λ found. map shown found.items ≡ functions_of texts.now) }
{
    let mut found = Vec::new(alloc);
    for (number, checked) in texts.iter().enumerate() {
        collect_functions(number, checked.text.definitions.as_slice(), &mut found)?;
    }
    Ok(found)
}

fn collect_functions<'a>(
    text: usize,
    definitions: &'a [Definition],
    found: &mut Vec<InText<&'a Func>>,
) -> Result<(), AllocError>
    ensures { OnOk result (map shown found.new.items ≡ map shown found.old.items ++ flat_map (function_in text) definitions.now) }
{
    for definition in definitions {
        match definition {
            Definition::Function(function) => found.push(InText {
                text,
                item: function,
            })?,
            Definition::Object(_) => {}
        }
    }
    Ok(())
}

/// All data of texts, in order of texts and definitions.
pub fn objects<'a>(
    alloc: Global,
    texts: &'a [Checked],
) -> Result<Vec<InText<&'a DataDef>>, AllocError>
    ensures { IfOk result (λ found. map shown found.items ≡ objects_of texts.now) }
{
    let mut found = Vec::new(alloc);
    for (number, checked) in texts.iter().enumerate() {
        collect_objects(number, checked.text.definitions.as_slice(), &mut found)?;
    }
    Ok(found)
}

fn collect_objects<'a>(
    text: usize,
    definitions: &'a [Definition],
    found: &mut Vec<InText<&'a DataDef>>,
) -> Result<(), AllocError>
    ensures { OnOk result (map shown found.new.items ≡ map shown found.old.items ++ flat_map (object_in text) definitions.now) }
{
    for definition in definitions {
        match definition {
            Definition::Object(object) => found.push(InText { text, item: object })?,
            Definition::Function(_) => {}
        }
    }
    Ok(())
}

/// The names that functions and data define.
pub fn global_names(
    alloc: Global,
    functions: &[InText<&Func>],
    objects: &[InText<&DataDef>],
) -> Result<Vec<GlobalName>, AllocError>
    ensures { IfOk result (λ names. names.items ≡ names_of_functions 0 (map shown functions.now) ++ names_of_objects 0 (map shown objects.now)) }
{
    let mut names = Vec::new(alloc);
    name_functions(functions, &mut names)?;
    name_objects(objects, &mut names)?;
    Ok(names)
}

#[tactic(auto, using(crate::proofs::NameLemmas::function_names_further))]
fn name_functions(
    functions: &[InText<&Func>],
    names: &mut Vec<GlobalName>,
) -> Result<(), AllocError>
    ensures { OnOk result (names.new.items ≡ names.old.items ++ names_of_functions 0 (map shown functions.now)) }
{
    for (number, function) in functions.iter().enumerate() {
        names.push(GlobalName {
            text: function.text,
            symbol: function.item.name,
            exported: function.item.exported,
            target: Target::Code(Callee::Defined(number)),
        })?;
    }
    Ok(())
}

#[tactic(auto, using(crate::proofs::NameLemmas::object_names_further))]
fn name_objects(objects: &[InText<&DataDef>], names: &mut Vec<GlobalName>) -> Result<(), AllocError>
    ensures { OnOk result (names.new.items ≡ names.old.items ++ names_of_objects 0 (map shown objects.now)) }
{
    for (number, object) in objects.iter().enumerate() {
        names.push(GlobalName {
            text: object.text,
            symbol: object.item.name,
            exported: object.item.exported,
            target: Target::Object(number),
        })?;
    }
    Ok(())
}
