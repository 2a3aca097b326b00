//! The program `qbec`: its words, files and standard streams, handed to [`commands::invoke::invoke`].
//!
//! What the system gives and takes is promised by no contract; every byte goes out by [`shell::write_exe::write_exe`].
#![tactic(auto)]

use commands::invoke::invoke;
use regalloc::linear_scan::LinearScan;
use shell::{HostFiles, Stream};
use std::process::ExitCode;
use std::rt::Env;
use std::{env, io};

fn words_of_process<R: Env + AllocGlobal>(rt: &R) -> io::Result<Vec<String>> {
    let words = env::args(rt)?.collect(rt.alloc())?;
    Ok(words)
}

fn main(rt: HostRuntime) -> ExitCode {
    let alloc = rt.alloc();
    let mut allocator = LinearScan::new(alloc);
    let mut files = HostFiles::new(&rt);
    let mut out = Stream::new(rt.stdout());
    let mut err = Stream::new(rt.stderr());
    invoke(
        alloc,
        words_of_process(&rt),
        &mut allocator,
        &mut files,
        &mut out,
        &mut err,
    )
}
