//! Linked texts.
ghost use Rattle.obj_link.specs.Linked.{program_with};
ghost use Rattle.obj_link.specs.Program.{IsProgram};
ghost use Rattle.std.proofs.Props.{props};

use il_ast::{DataDef, Func, InText, Seq, Target};
use il_types::Checked;

/// Texts that are a program, with every global name's meaning. The functions and data stand in the
/// texts.
#[derive(Drop)]
pub struct Linked<'a> {
    pub texts: &'a [Checked],
    /// for each text, what its symbols mean, in the order of `Text::symbols`
    pub targets: Seq<Seq<Target>>,
    /// all functions, in order of texts and definitions
    pub functions: Seq<InText<&'a Func>>,
    /// all data, in order of texts and definitions
    pub objects: Seq<InText<&'a DataDef>>,
    /// the number of the exported function `main`
    pub main: usize,
    pub ghost is_program: { ∥ IsProgram texts.now (program_with targets functions objects main) ∥₁ },
}
