//! Definitions by their lines.
use il_ast::{Definition, Func, Symbol, Text};

pub fn line_of(definition: &Definition) -> usize {
    match definition {
        Definition::Function(function) => function.line,
        Definition::Object(object) => object.line,
    }
}

pub fn symbol_of(definition: &Definition) -> Symbol {
    match definition {
        Definition::Function(function) => function.name,
        Definition::Object(object) => object.name,
    }
}

pub fn is_exported(definition: &Definition) -> bool {
    match definition {
        Definition::Function(function) => function.exported,
        Definition::Object(object) => object.exported,
    }
}

/// The definition that a line stands in: the last one that begins at the line or before.
pub fn definition_at(text: &Text, line: usize) -> Option<&Definition> {
    let mut backwards = text.definitions.as_slice().iter().rev();
    backwards.find(|definition| line_of(definition) <= line)
}

/// The function that a line stands in.
pub fn function_at(text: &Text, line: usize) -> Option<&Func> {
    match definition_at(text, line)? {
        Definition::Function(function) => Some(function),
        Definition::Object(_) => None,
    }
}
