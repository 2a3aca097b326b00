//! Words of the command line, and what is shown for them.
//!
//! In `lines.cases` a line `$ WORDS` begins a case, the next one is the status, and the lines up to one that is a dot are what goes to standard output and then to
//! standard error; behind those of `stack`, where it shows a bound, how much of the stack a run uses, by the interpreter. Lines behind `file PATH`, up to one that is a dot, are a file for the next case. Five files are there for each: the texts `seven` and `halts`, `made`, which the second is built to, `faults`, an executable whose one word is no instruction, and `exits`, one of three instructions.
use crate::broken_disk::BrokenDisk;
use crate::commanded::perform;
use crate::devices::disk_of;
use crate::stack_uses::{bound_shown, greatest_use};
use std::alloc::AllocError;
use std::rt::Files;
use std::{fs, io, str};
use test_report::report::Report;

/// Behind what `stack` shows, adds what a run uses, which is no more than the bound.
fn check_use(
    disk: &BrokenDisk,
    paths: &[&str],
    said: &mut String,
    report: &mut Report,
) -> Result<(), AllocError> {
    let Some(bound) = bound_shown(said.as_str()) else {
        return Ok(());
    };
    let files = paths.iter().map(|path| disk.find(*path).unwrap_or(b""));
    let texts: Vec<&[u8]> = files.collect(report.alloc)?;
    let used = greatest_use(report.alloc, texts.as_slice())?;
    writeln!(said, "used by a run: {used}")?;
    report.holds("the use of a run is within the bound", used <= bound)
}

fn check_shown(
    disk: &mut BrokenDisk,
    words: &str,
    wanted: &str,
    report: &mut Report,
) -> Result<(), AllocError> {
    let alloc = report.alloc;
    report.begin(words)?;
    let words: Vec<&str> = words.split_whitespace().collect(alloc)?;
    let done = perform(alloc, disk, words.as_slice())?;
    let output = str::from_utf8(done.output.as_slice()).unwrap_or("bytes");
    let mut said = format!(in alloc; "{}\n{output}{}", done.status, done.message)?;
    if let ["stack", paths @ ..] = words.as_slice() {
        check_use(disk, paths, &mut said, report)?;
    }
    report.compare("shown", wanted, said.as_str())
}

/// Checks the words of `lines.cases`.
pub fn check<R: Files + AllocGlobal>(rt: &R, report: &mut Report) -> io::Result<()> {
    let bytes = fs::read(rt, "lines.cases")?;
    let text = str::from_utf8(bytes.as_slice()).unwrap_or("");
    let mut disk = disk_of(rt.alloc())?;
    for block in text.strip_suffix("\n.\n").unwrap_or(text).split("\n.\n") {
        let (first, rest) = block.split_once('\n').unwrap_or((block, ""));
        let rest = format!(in rt.alloc(); "{rest}\n")?;
        match first.split_once(' ') {
            Some(("file", path)) => disk.store(path, rest.as_bytes())?,
            Some(("$", words)) => {
                check_shown(&mut disk, words, rest.as_str(), report)?;
                disk = disk_of(rt.alloc())?;
            }
            _ => {
                report.begin("lines")?;
                report.fail("read", "a case or a file", first)?;
            }
        }
    }
    Ok(())
}
