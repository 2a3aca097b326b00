//! Linking: what every global name of several texts means.
ghost use Rattle.std.specs.Prelude.{◌≡◌, ◌≤◌, ℕ, List, map, codes, Some, MatchResult, OnOk};
ghost use Rattle.il_ast.specs.declared.program.Program.{Program as ProgramOf};
ghost use Rattle.obj_link.specs.declared.linking.error.LinkError.TheVariants.{Memory};
ghost use Rattle.obj_link.specs.Prelude.{shown, functions_of, objects_of, names_of, IsJoined, RefusesJoined, IsProgram, program, IsLinked, Refuses};

use crate::linking::error::LinkError;
use crate::linking::exports::exports;
use crate::linking::limits::within_limits;
use crate::linking::linked::Linked;
use crate::linking::main_function::main_in;
use crate::linking::names::{GlobalName, functions, global_names, objects};
use crate::linking::tables::owned;
use crate::linking::targets::targets;
use il_ast::{DataDef, Func, InText, Seq, Target};
use il_types::Checked;
use std::alloc::Global;

/// Links texts: gives each global name of each text its meaning.
///
/// A name means the text's own definition, or else what another text exports by that name, or else
/// the predefined `write` or `exit`. `LinkError::UnknownName` has a name that means none of these,
/// `LinkError::ExportedTwice` one that is exported more than once, a predefined one among them;
/// `LinkError::NoMain` says that no function `main` is exported as `w ()` or `w (w, l)`,
/// `LinkError::Limit` that a limit over all texts is passed, and `LinkError::Memory` that memory was
/// refused. Any but the last is answered only for texts that are no program.
pub fn resolve<'a>(alloc: Global, texts: &'a [Checked]) -> Result<Linked<'a>, LinkError<'a>>
    ensures truth { MatchResult result (λ linked. IsLinked texts.now linked) (λ error. Refuses error texts.now) }
    ensures only { (p : ProgramOf) → IsProgram texts.now p → MatchResult result (λ linked. program linked ≡ p) (λ error. error ≡ Memory) }
{
    match link(alloc, texts) {
        Ok(linked) => Ok(linked),
        Err(error) => Err(error),
    }
}

fn link<'a>(alloc: Global, texts: &'a [Checked]) -> Result<Linked<'a>, LinkError<'a>>
    ensures { MatchResult result (λ linked. IsLinked texts.now linked) (λ error. Refuses error texts.now) }
{
    let functions = functions(alloc, texts)?;
    let objects = objects(alloc, texts)?;
    let names = global_names(alloc, functions.as_slice(), objects.as_slice())?;
    match join(alloc, texts, names.as_slice()) {
        Ok(joined) => begin(texts, functions, objects, joined),
        Err(error) => Err(error),
    }
}

/// The program of these functions and data, of which the names mean this.
fn begin<'a>(
    texts: &'a [Checked],
    functions: Vec<InText<&'a Func>>,
    objects: Vec<InText<&'a DataDef>>,
    joined: Joined,
) -> Result<Linked<'a>, LinkError<'a>>
    requires functions { map shown functions.items ≡ functions_of texts.now }
    requires objects { map shown objects.items ≡ objects_of texts.now }
    requires joined { IsJoined texts.now (names_of texts.now) joined.targets joined.main }
    ensures { MatchResult result (λ linked. IsLinked texts.now linked) (λ error. Refuses error texts.now) }
{
    let functions = Seq::from_vec(functions);
    let objects = Seq::from_vec(objects);
    if !within_limits(texts, functions.as_slice(), objects.as_slice()) {
        return Err(LinkError::Limit);
    }
    match main_in(functions.as_slice(), joined.main) {
        Some(main) => Ok(Linked {
            texts,
            targets: joined.targets,
            functions,
            objects,
            main,
        }),
        None => Err(LinkError::NoMain),
    }
}

/// What the names of texts mean, and the name `main` among all that is exported.
#[derive(Drop)]
struct Joined {
    targets: Seq<Seq<Target>>,
    main: Option<Target>,
}

/// What the names of texts mean that define these.
fn join<'a>(
    alloc: Global,
    texts: &'a [Checked],
    names: &[GlobalName],
) -> Result<Joined, LinkError<'a>>
    ensures { MatchResult result (λ joined. IsJoined texts.now names.now joined.targets joined.main) (λ error. RefusesJoined error texts.now names.now) }
{
    let exports = match exports(alloc, texts, names) {
        Ok(exports) => exports,
        Err(error) => return Err(error),
    };
    let owned = owned(alloc, names)?;
    let word: &[u8] = b"main";
    let main = exports.get(&word).copied();
    match targets(alloc, texts, &owned, &exports) {
        Ok(found) => Ok(Joined {
            targets: Seq::from_vec(found),
            main,
        }),
        Err(error) => Err(error),
    }
}
