//! The words of all functions of a program.
ghost use Rattle.std.specs.Prelude.{◌≡◌, ◌++◌, ◌∷◌, ◌+◌, ◌*◌, ◌≤◌, [], IsTrue, IfOk, OnOk, length, map};
ghost use Rattle.il_ast.specs.declared.program.Program.{Program};
ghost use Rattle.il_ast.specs.Prelude.{weight};
ghost use Rattle.phi_copies.specs.Good.{IsGoodFunction};
ghost use Rattle.obj_link.specs.Prelude.{shown, calls_reach, IsProgram, program};
ghost use Rattle.qbec.specs.Pipeline.{AreCandidatesIn, StandPromoted, AllHaveForm, AreGood, AreWords, AreWordsIn};
ghost use Rattle.asm_layout.specs.Forms.{HaveForm};
ghost use Rattle.rv_isa.specs.Prelude.{IsCode};

use crate::candidates::{candidates_in, candidates_of};
use crate::pipeline::function_words;
use asm_layout::call::CallForm;
use certificates::Strategy;
use il_ast::{Func, InText};
use obj_link::Linked;
use obj_link::placing::place::calls_reach;
use rv_isa::MachineCode;
use std::alloc::{AllocError, Global};
use vcode::VFunc;

fn push_code(codes: &mut Vec<MachineCode>, code: MachineCode) -> Result<(), AllocError>
    ensures pushed { OnOk result (codes.new.items ≡ codes.old.items ++ code ∷ []) }
    ensures code { IsCode code }
{
    // what is read of a code shows what every code keeps
    code.words();
    codes.push(code)?;
    Ok(())
}

/// The words of a function of this text, with calls of the text's candidates in place.
fn words_of(
    alloc: Global,
    form: CallForm,
    tables: &[Vec<Option<VFunc>>],
    text: usize,
    func: &Func,
    allocator: &mut dyn Strategy,
) -> Result<MachineCode, AllocError>
    requires { IsGoodFunction func.now }
    ensures stand { IfOk result (λ c. (p : Program) → AreCandidatesIn p (map (λ t. t.items) tables.now) → StandPromoted p (record { text = text; item = func.now }) c) }
    ensures few { IfOk result (λ c. length c.words ≤ 32 * weight func.now + 256) }
    ensures calls { IfOk result (λ c. HaveForm form c.holes) }
{
    function_words(alloc, form, candidates_in(tables, text), func, allocator)
}

/// The words of functions, in order, with calls of their texts' candidates in place.
fn codes_with(
    alloc: Global,
    form: CallForm,
    tables: &[Vec<Option<VFunc>>],
    functions: &[InText<&Func>],
    allocator: &mut dyn Strategy,
) -> Result<Vec<MachineCode>, AllocError>
    requires { AreGood functions.now }
    ensures words { IfOk result (λ v. (p : Program) → AreCandidatesIn p (map (λ t. t.items) tables.now) → AreWordsIn p v.items (map shown functions.now)) }
    ensures calls { IfOk result (λ v. AllHaveForm form v.items) }
{
    let mut codes = Vec::new(alloc);
    for function in functions {
        let code = words_of(alloc, form, tables, function.text, function.item, allocator)?;
        push_code(&mut codes, code)?;
    }
    Ok(codes)
}

/// The words of all functions of a program, in order, with calls of small candidates in place, and calls in this form.
fn codes_in(
    alloc: Global,
    form: CallForm,
    linked: &Linked<'_>,
    allocator: &mut dyn Strategy,
) -> Result<Vec<MachineCode>, AllocError>
    requires { AreGood linked.now.functions }
    ensures words { IfOk result (λ v. AreWords v.items (program linked.now)) }
    ensures calls { IfOk result (λ v. AllHaveForm form v.items) }
{
    let tables = candidates_of(alloc, linked)?;
    let functions = linked.functions.as_slice();
    codes_with(alloc, form, tables.as_slice(), functions, allocator)
}

/// Whether the calls by `jal` of functions of these words reach.
fn reach(alloc: Global, linked: &Linked<'_>, codes: &[MachineCode]) -> Result<bool, AllocError>
    requires program { IsProgram linked.now.texts.now (program linked.now) }
    requires words { AreWords codes.now (program linked.now) }
    ensures { IfOk result (λ all. all ≡ calls_reach (program linked.now) codes.now) }
{
    calls_reach(alloc, codes, linked)
}

/// The words of all functions of a program, in order, with calls of small candidates in place. Calls are `jal` where this reaches each function that is
/// called, else all are `lui` and `jalr`.
///
/// # Errors
///
/// Only where memory was refused.
pub fn codes_of(
    alloc: Global,
    linked: &Linked<'_>,
    allocator: &mut dyn Strategy,
) -> Result<Vec<MachineCode>, AllocError>
    requires program { IsProgram linked.now.texts.now (program linked.now) }
    requires good { AreGood linked.now.functions }
    ensures words { IfOk result (λ v. AreWords v.items (program linked.now)) }
    ensures reach { IfOk result (λ v. IsTrue (calls_reach (program linked.now) v.items)) }
{
    let codes = codes_in(alloc, CallForm::Near, linked, allocator)?;
    if reach(alloc, linked, codes.as_slice())? {
        return Ok(codes);
    }
    codes_in(alloc, CallForm::Far, linked, allocator)
}
