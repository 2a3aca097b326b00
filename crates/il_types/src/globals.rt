//! The rule on global names: distinct globals.
ghost use Rattle.std.specs.Prelude.{◌≡◌, IfOk};
ghost use Rattle.il_types.specs.Prelude.{definition_site, global_sites, repeated_global};

use crate::repeats::repeated;
use crate::site::Site;
use il_ast::{Definition, Text};
use std::alloc::{AllocError, Global};

/// The line of a definition whose name another one has too.
pub fn repeated_global(alloc: Global, text: &Text) -> Result<Option<usize>, AllocError>
    ensures { IfOk result (λ line. line ≡ repeated_global text.now) }
{
    let sites = global_sites(alloc, text.definitions.as_slice())?;
    repeated(alloc, sites.as_slice())
}

fn global_sites(alloc: Global, definitions: &[Definition]) -> Result<Vec<Site>, AllocError>
    ensures { IfOk result (λ found. found.items ≡ global_sites definitions.now) }
{
    let mut found = Vec::with_capacity(alloc, definitions.len())?;
    for definition in definitions {
        found.push(definition_site(definition))?;
    }
    Ok(found)
}

fn definition_site(definition: &Definition) -> Site
    ensures { result ≡ definition_site definition.now }
{
    match definition {
        Definition::Function(function) => Site {
            line: function.line,
            number: function.name.number(),
        },
        Definition::Object(object) => Site {
            line: object.line,
            number: object.name.number(),
        },
    }
}
