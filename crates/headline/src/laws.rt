//! The theorem that joins the layers, and what the compiler's first steps give the next, each part as the contract of a function that does nothing.
ghost use Rattle.headline.specs.Executables.{CallsAreKept, ExecutableRuns, PlacedNatives, PlacedStands, PlacedStart, ProgramsHaveNames};
ghost use Rattle.headline.specs.Answered.{EndlessProgramsRunOn, RunsAnswer, ProgramIsExecuted};
ghost use Rattle.headline.specs.Headline.{Executes};
ghost use Rattle.headline.specs.Read.{FunctionsAreGood};
ghost use Rattle.headline.specs.Example.{state};
ghost use Rattle.headline.specs.Compiled.{CompiledRuns, ReplacedRuns, StandsIn};
ghost use Rattle.il_ast.specs.Prelude.{halts};
ghost use Rattle.std.specs.Prelude.{[]};

/// Where the machine keeps each function if it keeps the calls that this makes, it keeps all calls, however deep they nest.
pub fn calls_are_kept()
    ensures { CallsAreKept }
{}

/// Where the machine keeps each function if it keeps the calls that this makes, performs `write` and `exit`, and comes to a call of `main` from whose
/// return it exits, it executes the program.
pub fn program_is_executed()
    ensures { ProgramIsExecuted }
{}

/// What the theorem asks can be met: a machine with three instructions executes the program whose `main` halts. Its function is kept by layers, with a code
/// on blocks and one on bytes.
pub fn example_is_executed()
    ensures { Executes halts [] state }
{}

/// From every start of an executable with argument words within their limits: where the data stands in the file, the functions are kept, and the start code
/// comes to a call of `main`, the machine executes the program.
pub fn executable_runs()
    ensures { ExecutableRuns }
{}

/// In the executable of a placed program the words of `write` and `exit` perform the two, from wherever they are called.
pub fn natives_perform()
    ensures { PlacedNatives }
{}

/// In the executable of a placed program the start code calls `main`, and exits with what that returns.
pub fn start_runs()
    ensures { PlacedStart }
{}

/// All that names of linked texts mean is there, and so is `main`.
pub fn programs_have_names()
    ensures { ProgramsHaveNames }
{}

/// In the executable of a placed program the data stands at its addresses, and the functions have addresses of their own, each a multiple of 4.
pub fn executables_stand()
    ensures { PlacedStands }
{}

/// Each function of linked texts is one that can be lowered.
pub fn functions_are_good()
    ensures { FunctionsAreGood }
{}

/// Words that stand for a function stand in for it in every program.
pub fn words_stand_in()
    ensures { StandsIn }
{}

/// Where words stand in for each function of a program, its executable executes it: from every start with argument words within their limits.
pub fn replaced_programs_run()
    ensures { ReplacedRuns }
{}

/// Where words stand for each function of a program, its executable executes it: from every start with argument words within their limits.
pub fn compiled_programs_run()
    ensures { CompiledRuns }
{}

/// A machine that executes a program that never ends never stops, and puts out what the program does: all of it in time, and at each moment a beginning of it.
pub fn endless_programs_run_on()
    ensures { EndlessProgramsRunOn }
{}

/// Each run of a machine that executes a program answers as the program means: where that exits or halts, a run of at least its price ends so, with its output; while it
/// goes on, a run does; and of a program that is defined and stays in the stack every answer tells the truth, and none is a fault.
pub fn runs_answer()
    ensures { RunsAnswer }
{}
