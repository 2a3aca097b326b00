//! The grammar of the command line.
ghost use Rattle.std.specs.Prelude.{[], ◌∷◌, IfOk, List, Some, ℕ};
ghost use Rattle.clap.specs.Simple.{new_app, new_rule, with_rule};
ghost use Rattle.clap.specs.Walk.{Rule};
ghost use Rattle.command_line.specs.Grammar.{HasSubcommand, IsRead, IsRuled, also_out_rule, build_app, check_app, dis_app, explain_rule, files_rule, interp_app, last_rule, limit_rule, out_rule, path_rule, program_app, qbec_app, run_app, running_app, stack_app, symbols_app, trace_app, words_rule};

use clap::builder::ValueParser;
use clap::{Arg, ArgAction, Command, value_parser};
use std::alloc::{AllocError, Global};

/// The names of the arguments.
pub(crate) const OUT: &str = "OUT";

pub(crate) const FILES: &str = "FILES";

pub(crate) const LIMIT: &str = "limit";

pub(crate) const LAST: &str = "last";

pub(crate) const EXPLAIN: &str = "explain";

pub(crate) const EXECUTABLE: &str = "EXE";

pub(crate) const TEXT: &str = "FILE";

pub(crate) const WORDS: &str = "WORDS";

/// What stands above the help of the program.
const COMPILES: &str =
    "Compiles programs in the QBE intermediate language (its integer part) to static RV64IM executables";

/// What stands below the help of the program and of its commands.
const STATUSES: &str =
    "Exit status: the program's own of run, interp and trace, 0 of build, dis, check, symbols and stack; 134 where the program halts, 124 at the limit, 125 where it faults, is undefined or runs out of stack, 126 where qbec refuses or can't go on. Each but the program's own comes with a line on standard error that says why. qbec check FILE..., or --explain, says it in words.

Example: qbec build -o hello examples/hello.ssa && qbec run hello";

const BUILD: &str =
    "Exit status: 0, and OUT can be executed; 126 where the texts are refused or a file can't be read or written, and a line on standard error says why. With --explain there are more lines behind it, those of qbec check: each mistake in words, with its file and its line.

Example: qbec build --explain -o hello examples/hello.ssa";

const RUN: &str =
    "Exit status: the program's own; 134 where it halts, 124 at the limit, 125 where it faults, 126 where EXE or the words are refused. With --explain a line behind that of a refusal says in words what is wrong with EXE.

Example: qbec run --limit 100000 echo -- -n word";

const INTERPRET: &str =
    "Exit status: the program's own; 134 where it halts, 124 at the limit, 125 where it is undefined or runs out of stack, 126 where FILE or the words are refused. With --explain there are more lines behind that of a refusal, those of qbec check: each mistake in words, with its line.

Example: qbec interp --limit 100000 examples/hello.ssa";

const DISASSEMBLE: &str =
    "Exit status: 0, or 126 where EXE is refused. With --explain a line behind that of a refusal says in words what is wrong with EXE.

Example: qbec dis hello";

const CHECK: &str =
    "Exit status: 0 where the texts are a program, 126 where they are none or a file can't be read. Standard error has a line for each refusal and each warning, with its file and its line; docs/LANGUAGE.md explains the codes at their ends.

Example: qbec check examples/hello.ssa";

const SYMBOLS: &str =
    "Exit status: 0; 126 where the texts are refused or a file can't be read or written, and a line on standard error says why. Standard output has a line for each function and each datum of the executable that build makes of the texts, in the order of addresses, as nm -S prints them: address and size in hexadecimal, a letter, and the name; the letter is T for a function and D for a datum, t or d where the name isn't exported.

With -o the executable of which the lines are is written to OUT first.

Example: qbec symbols -o hello examples/hello.ssa";

const STACK: &str =
    "Exit status: 0; 126 where the texts are refused or a file can't be read, and a line on standard error says why. Standard output has a line for each function, in the order of the texts: the bytes of stack that it needs, the most that a call of it takes with all that it calls, or - where nothing bounds that, and the name. The last line says the most that the program takes, whatever its argument words and however long it runs, or which calls come round to themselves.

Example: qbec stack examples/hello.ssa";

const TRACE: &str = "The argument words of the program stand behind '--'.

Exit status: as of interp. Where the program doesn't exit, lines on standard error say where and why it ended, before the line that says how: the line of a text and the function, what its operands hold, and the calls that it stands in.

Example: qbec trace --limit 100000 --last 5 examples/endless.ssa -- word";

/// What the program takes.
pub(crate) fn grammar<'a>(alloc: Global) -> Result<Command<'a>, AllocError>
    ensures { IfOk result (λ c. IsRead c qbec_app) }
{
    let program = with_subcommand(program(alloc), build(alloc));
    let program = with_subcommand(program, run(alloc));
    let program = with_subcommand(program, interp(alloc));
    let program = with_subcommand(program, dis(alloc));
    let program = with_subcommand(program, check(alloc));
    let program = with_subcommand(program, symbols(alloc));
    let program = with_subcommand(program, stack(alloc));
    with_subcommand(program, trace(alloc))
}

/// A program with one more command, where there was memory for both.
fn with_subcommand<'a>(
    program: Result<Command<'a>, AllocError>,
    command: Result<Command<'a>, AllocError>,
) -> Result<Command<'a>, AllocError>
    ensures { HasSubcommand program.entry command.entry result }
{
    let command = command?;
    program?.subcommand(command)
}

/// The program, without its commands.
fn program<'a>(alloc: Global) -> Result<Command<'a>, AllocError>
    ensures { IfOk result (λ c. IsRead c program_app) }
{
    Command::new(alloc, "qbec")
        .about(COMPILES)
        .after_help(STATUSES)
        .version("1.0")
        .no_binary_name(true)
        .subcommand_required(true)
        .disable_help_subcommand(true)
        .bin_name("qbec")
}

/// A command of this name, with what its help says above and below its arguments, and with its first argument.
fn command<'a>(
    alloc: Global,
    name: &'a str,
    about: &'a str,
    help: &'a str,
    first: Arg<'a>,
) -> Result<Command<'a>, AllocError>
    ensures { (r : Rule) → IsRuled first.entry r → IfOk result (λ c. IsRead c (with_rule (new_app name.now) r)) }
{
    Command::new(alloc, name)
        .about(about)
        .after_help(help)
        .arg(first)
}

fn build<'a>(alloc: Global) -> Result<Command<'a>, AllocError>
    ensures { IfOk result (λ c. IsRead c build_app) }
{
    let about = "Compiles texts to an executable file";
    command(alloc, "build", about, BUILD, out(alloc))?
        .arg(explain(alloc))?
        .arg(files(alloc))
}

/// A command that runs a program within a limit: it with its other arguments.
fn running<'a>(
    alloc: Global,
    command: Command<'a>,
    file: &'a str,
    file_help: &'a str,
) -> Result<Command<'a>, AllocError>
    ensures { (name : List ℕ) → IsRead command.entry (with_rule (new_app name) limit_rule) → IfOk result (λ c. IsRead c (running_app name file.now)) }
{
    command
        .arg(explain(alloc))?
        .arg(path(alloc, file, file_help))?
        .arg(words(alloc))
}

fn run<'a>(alloc: Global) -> Result<Command<'a>, AllocError>
    ensures { IfOk result (λ c. IsRead c run_app) }
{
    let limit = limit(alloc, "How many instructions to run at most");
    let command = command(alloc, "run", "Runs an executable file", RUN, limit)?;
    running(alloc, command, EXECUTABLE, "The executable file")
}

fn interp<'a>(alloc: Global) -> Result<Command<'a>, AllocError>
    ensures { IfOk result (λ c. IsRead c interp_app) }
{
    let limit = limit(alloc, "How many turns to take at most");
    let command = command(alloc, "interp", "Interprets one text", INTERPRET, limit)?;
    running(alloc, command, TEXT, "The text of the program")
}

fn dis<'a>(alloc: Global) -> Result<Command<'a>, AllocError>
    ensures { IfOk result (λ c. IsRead c dis_app) }
{
    let about = "Shows the instructions of an executable file";
    let file = path(alloc, EXECUTABLE, "The executable file");
    command(alloc, "dis", about, DISASSEMBLE, explain(alloc))?.arg(file)
}

fn check<'a>(alloc: Global) -> Result<Command<'a>, AllocError>
    ensures { IfOk result (λ c. IsRead c check_app) }
{
    let about = "Says what is wrong with texts, and where";
    command(alloc, "check", about, CHECK, files(alloc))
}

fn symbols<'a>(alloc: Global) -> Result<Command<'a>, AllocError>
    ensures { IfOk result (λ c. IsRead c symbols_app) }
{
    let about = "Shows where the names of texts stand in their executable";
    command(alloc, "symbols", about, SYMBOLS, also_out(alloc))?.arg(files(alloc))
}

fn stack<'a>(alloc: Global) -> Result<Command<'a>, AllocError>
    ensures { IfOk result (λ c. IsRead c stack_app) }
{
    let about = "Shows how much stack a program takes at most";
    command(alloc, "stack", about, STACK, files(alloc))
}

fn trace<'a>(alloc: Global) -> Result<Command<'a>, AllocError>
    ensures { IfOk result (λ c. IsRead c trace_app) }
{
    let about = "Interprets texts, and says where and why they ended";
    let limit = limit(alloc, "How many turns to take at most");
    command(alloc, "trace", about, TRACE, limit)?
        .arg(last(alloc))?
        .arg(files(alloc))
}

fn out<'a>(alloc: Global) -> Arg<'a>
    ensures { IsRuled result out_rule }
{
    Arg::new(alloc, OUT)
        .short('o')
        .required(true)
        .help("The executable file to write")
}

/// An OUT that needn't be there.
fn also_out<'a>(alloc: Global) -> Arg<'a>
    ensures { IsRuled result also_out_rule }
{
    Arg::new(alloc, OUT).short('o').help(
        "An executable file to write too, that of which the lines are",
    )
}

fn files<'a>(alloc: Global) -> Arg<'a>
    ensures { IsRuled result files_rule }
{
    Arg::new(alloc, FILES)
        .value_name("FILE")
        .required(true)
        .num_args(1..)
        .help("The texts of the program, in order")
}

fn path<'a>(alloc: Global, name: &'a str, help: &'a str) -> Arg<'a>
    ensures { IsRuled result (path_rule name.now) }
{
    Arg::new(alloc, name).required(true).help(help)
}

fn explain<'a>(alloc: Global) -> Arg<'a>
    ensures { IsRuled result explain_rule }
{
    Arg::new(alloc, EXPLAIN)
        .long(EXPLAIN)
        .action(ArgAction::SetTrue)
        .help("Says in words why something is refused")
}

/// An option of this name, a number that help calls `value`.
fn number<'a>(
    alloc: Global,
    name: &'a str,
    value: &'a str,
    parser: ValueParser<'a>,
    default: &'a str,
) -> Arg<'a>
    ensures { IsRuled result (record (new_rule name.now) { long = Some name.now; value_names = 1; parser = Some parser.entry; defaults = default.now ∷ [] }) }
{
    Arg::new(alloc, name)
        .long(name)
        .value_name(value)
        .value_parser(parser)
        .default_value(default)
}

fn limit<'a>(alloc: Global, help: &'a str) -> Arg<'a>
    ensures { IsRuled result limit_rule }
{
    let parser = value_parser!(u64).range(0..=1_000_000_000_000);
    number(alloc, LIMIT, "N", parser, "1000000000").help(help)
}

fn last<'a>(alloc: Global) -> Arg<'a>
    ensures { IsRuled result last_rule }
{
    let parser = value_parser!(u64).range(0..=1_000);
    number(alloc, LAST, "K", parser, "0").help("How many turns before the last one to show")
}

fn words<'a>(alloc: Global) -> Arg<'a>
    ensures { IsRuled result words_rule }
{
    Arg::new(alloc, WORDS).value_name("WORD").num_args(0..).help(
        "The argument words of the program; those that begin with '-' stand after '--'",
    )
}
