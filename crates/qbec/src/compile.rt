//! From texts to an executable file.
ghost use Rattle.std.specs.Prelude.{◌≡◌, IsTrue, IfOk, IfErr, map, MatchResult};
ghost use Rattle.il_ast.specs.declared.program.Program.{Program};
ghost use Rattle.obj_link.specs.Prelude.{program, IsProgram, calls_reach, contents_of};
ghost use Rattle.elf_file.specs.Conditions.{Loads};
ghost use Rattle.elf_file.specs.File.{executable_of};
ghost use Rattle.qbec.specs.declared.error.CompileError.TheVariants.{Memory};
ghost use Rattle.qbec.specs.Pipeline.{AreGood, AreWords};
ghost use Rattle.qbec.specs.Refusals.{IsFile, IsCompiled, Refuses, AreProgram};

use crate::codes::codes_of;
use crate::error::{CompileError, link_refusal};
use crate::texts::checked_texts;
use certificates::Strategy;
use elf_file::write_image;
use obj_link::Linked;
use obj_link::linking::resolve::resolve;
use obj_link::placing::place::place;
use rv_isa::MachineCode;
use std::alloc::Global;

/// The file of a program whose functions have these words.
pub(crate) fn file_of(
    alloc: Global,
    linked: &Linked<'_>,
    codes: &[MachineCode],
) -> Result<Vec<u8>, CompileError>
    requires program { IsProgram linked.now.texts.now (program linked.now) }
    requires words { AreWords codes.now (program linked.now) }
    requires reach { IsTrue (calls_reach (program linked.now) codes.now) }
    ensures file { MatchResult result (λ v. IsFile (program linked.now) v.items) (λ e. e ≡ Memory) }
    ensures loads { IfOk result (λ v. Loads v.items (executable_of (contents_of (program linked.now) codes.now))) }
{
    match place(alloc, codes, linked) {
        Ok(image) => {
            let bytes = write_image(alloc, &image)?;
            Ok(bytes)
        }
        Err(_) => Err(CompileError::Memory),
    }
}

fn compiled(
    alloc: Global,
    linked: &Linked<'_>,
    allocator: &mut dyn Strategy,
) -> Result<Vec<u8>, CompileError>
    requires program { IsProgram linked.now.texts.now (program linked.now) }
    requires good { AreGood linked.now.functions }
    ensures { MatchResult result (λ v. IsFile (program linked.now) v.items) (λ e. e ≡ Memory) }
{
    let codes = codes_of(alloc, linked, allocator)?;
    file_of(alloc, linked, codes.as_slice())
}

/// Compiles texts to an executable file, with the registers that the strategy chooses, where that is right: whatever it answers, the executable does the same.
///
/// The bytes are a static ELF64 executable of the program that the texts are: from every start of the machine with argument words within their limits it
/// executes the program.
///
/// # Errors
///
/// Each but `CompileError::Memory` says why the texts are no program, and is answered for no others: `Syntax` and `Rule` name a text that is not in the
/// grammar, or breaks a rule, with a line; `UnknownName` and `ExportedTwice` a name that means nothing, or is exported more than once; `NoMain` says that no
/// function is exported as `main` in one of the two forms, and `Limit` that a limit of one text or over all is passed. `Memory` is answered only where memory was
/// refused.
pub fn compile(
    alloc: Global,
    texts: &[&[u8]],
    allocator: &mut dyn Strategy,
) -> Result<Vec<u8>, CompileError>
    ensures file { IfOk result (λ v. IsCompiled (map (λ t. t.now) texts.now) v.items) }
    ensures refused { IfErr result (λ e. Refuses e (map (λ t. t.now) texts.now)) }
    ensures only { (p : Program) → AreProgram (map (λ t. t.now) texts.now) p → IfErr result (λ e. e ≡ Memory) }
{
    match checked_texts(alloc, texts) {
        Ok(checked) => match resolve(alloc, checked.as_slice()) {
            Ok(linked) => compiled(alloc, &linked, allocator),
            Err(error) => Err(link_refusal(alloc, error)),
        },
        Err(error) => Err(error),
    }
}
