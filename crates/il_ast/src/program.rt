//! Programs: texts in which every global name has its meaning.
use crate::datum::DataDef;
use crate::function::Func;
use crate::list::Seq;
use crate::value::Callee;

/// What a global name means.
#[derive(Clone, Copy, Debug)]
pub enum Target {
    Code(Callee),
    /// a datum, by its number in the program
    Object(usize),
}

/// A definition, with the number of the text that it stands in.
#[derive(Drop)]
pub struct InText<T> {
    pub text: usize,
    pub item: T,
}

/// A program.
#[derive(Drop)]
pub struct Program {
    /// for each text, what its symbols mean, in the order of `Text::symbols`
    pub targets: Seq<Seq<Target>>,
    /// all functions, in order of texts and definitions
    pub functions: Seq<InText<Func>>,
    /// all data, in order of texts and definitions
    pub objects: Seq<InText<DataDef>>,
    /// the number of the exported function `main`
    pub main: usize,
}
