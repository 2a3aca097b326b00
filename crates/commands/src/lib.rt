//! # The commands of qbec
//!
//! [`command::command`] does what the words after the program's name ask for, over any files and streams, and answers the exit status: `build`, `run`, `interp`,
//! `dis`, `check`, `symbols`, `stack` and `trace`, or help. It writes one line to standard error where something ends otherwise than well.
//!
//! - [`runs::run_file`] runs the executable file of some bytes, exactly as the machine of the definitions does, and puts out what it puts out while it runs.
//! - [`runs::interpret_texts`] interprets texts, exactly as their program means.
//! - [`failure::Failure`] says why a command did not end well; its status is that of `specs/Pieces.antt`, and which failure a refusal becomes, and what
//!   it says of the file or of the text, is that of `specs/Refusals.antt`.
//! - [`verdict::judge`] finds what is wrong with texts, and where; what it says of them, and the lines that show it, is that of `specs/Verdicts.antt`.
//! - [`invoke::invoke`] does what the words of a process ask for, and answers the process's status; how it ends is that of `specs/Exits.antt`.
//! - [`explanation::Explanation`] gathers the words behind that line, where they are asked for.
//! - [`tell::tell`] writes the line of a failure, byte by byte that of `specs/Messages.antt`.
//!
//! - [`stack_lines::stack_listing`] says how much stack the program takes that texts are; the lines, and what the last one says of all runs, are those of
//!   `specs/StackLines.antt`.
//!
//! `specs/Parts.antt` says what each command does with what files hold, down to the bytes that go to standard output, and with which statuses and failures it ends;
//! `specs/Commands.antt` says the same of the whole, by what the words ask for, and with what goes to standard error. The texts of the command line are shown by the
//! tests alone.
#![tactic(auto)]

mod build;
mod check;
pub mod command;
mod disassemble;
pub mod explanation;
pub mod failure;
mod file_words;
mod files;
pub mod invoke;
pub mod laws;
mod list_symbols;
pub mod other_lines;
mod pieces;
pub mod refusal;
mod run;
pub mod runs;
mod show_stack;
pub mod stack_lines;
mod stack_reason;
pub mod tell;
mod tip;
mod trace;
pub mod traced;
pub mod verdict;
mod verdict_lines;
mod words;
