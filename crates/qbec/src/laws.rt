//! The laws of programs as bytes, each as the contract of a function that does nothing.
ghost use Rattle.qbec.specs.Laws.{AtMostOneProgram, CompiledFilesAnswer, RefusalsAreOfNoProgram};

/// Texts, as bytes, are at most one program.
pub fn at_most_one_program()
    ensures { AtMostOneProgram }
{}

/// What any refusal but that of memory says is true of no program.
pub fn refusals_are_of_no_program()
    ensures { RefusalsAreOfNoProgram }
{}

/// What was compiled answers what the texts mean: its file, read by [`elf_file::read_image`], started with words within their limits by `Machine::start`, and run
/// by `Machine::run`, by what these three ensure.
pub fn compiled_files_answer()
    ensures { CompiledFilesAnswer }
{}
