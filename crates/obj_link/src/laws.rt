//! The laws of linking, each as the contract of a function that does nothing.
ghost use Rattle.obj_link.specs.Prelude.{AtMostOneProgram, ProgramsExportMain, ProgramsFit, ProgramsHaveWhatNamesMean};

/// Texts are at most one program.
pub fn at_most_one_program()
    ensures { AtMostOneProgram }
{}

/// Each symbol of each text of a program means a function or datum of it, by its number, or a
/// predefined function; and `main` is the number of a function of one of the two forms.
pub fn programs_have_what_names_mean()
    ensures { ProgramsHaveWhatNamesMean }
{}

/// A program begins with a function that is exported as `main` in one of the two forms, so that texts without such a function are no program.
pub fn programs_export_main()
    ensures { ProgramsExportMain }
{}

/// A program fits below the stack where each function has at most 32 words for each unit of its weight and 256 more.
pub fn programs_fit()
    ensures { ProgramsFit }
{}
