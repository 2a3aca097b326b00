//! Disks and streams that fail, and lines for want of memory.
use crate::broken_disk::BrokenDisk;
use crate::commanded::{Done, line_of_words, perform_with, perform_words};
use crate::told::begin;
use commands::failure::Failure;
use commands::refusal::Refusal;
use commands::tell::tell;
use elf_file::{LoadError, write_image};
use obj_link::Image;
use shell::{FileFault, MemorySink};
use std::alloc::{AllocError, Global};
use std::str;
use test_report::report::Report;

/// Puts out `Hi` and a line end, and halts.
const HALTS: &str =
    "data $m = { b \"Hi\\n\" }\nexport function w $main() {\n@s\n%r =l call $write(w 1, l $m, l 3)\nhlt\n}\n";

const SEVEN: &str = "export function w $main() {\n@s\nret 7\n}\n";

/// Words, and the status and line that they give where a file or a device fails.
const ON_A_DEVICE: [(&str, &str); 9] = [
    ("build -o out seven broken", "126 qbec: cannot read broken"),
    ("build -o out absent broken", "126 qbec: cannot read absent"),
    ("build -o broken seven", "126 qbec: cannot write broken"),
    ("run broken", "126 qbec: cannot read broken"),
    ("run absent", "126 qbec: cannot read absent"),
    ("interp broken", "126 qbec: cannot read broken"),
    ("dis broken", "126 qbec: cannot read broken"),
    ("symbols -o out absent", "126 qbec: cannot read absent"),
    ("symbols -o broken seven", "126 qbec: cannot write broken"),
];

/// The same where memory is refused for the file.
const ON_MEMORY: [(&str, &str); 6] = [
    ("build -o out seven broken", "126 qbec: memory"),
    ("build -o broken seven", "126 qbec: memory"),
    ("run broken", "126 qbec: memory"),
    ("interp broken", "126 qbec: memory"),
    ("dis broken", "126 qbec: memory"),
    ("symbols -o broken seven", "126 qbec: memory"),
];

/// Words whose output is tried.
const OUTPUTS: [&str; 6] = [
    "interp halts",
    "run made",
    "dis made",
    "symbols -o out seven",
    "--help",
    "build --help",
];

/// Words whose messages are tried.
const MESSAGES: [&str; 6] = [
    "interp halts",
    "run made",
    "run absent",
    "interp seven",
    "go",
    "run",
];

/// A word that is no instruction.
const FAULTS: [u32; 1] = [0];

/// `addi x10, x0, 9`, `addi x17, x0, 93` and `ecall`: a program that exits with 9.
const EXITS: [u32; 3] = [0x0090_0513, 0x05d0_0893, 0x0000_0073];

// An executable of a few words.
fn executable(alloc: Global, code: &[u32]) -> Result<Vec<u8>, AllocError> {
    let code = code.to_vec(alloc)?;
    if code.is_empty() || code.len() > 3 {
        return Ok(Vec::new(alloc));
    }
    write_image(alloc, &Image::new(code, Vec::new(alloc)))
}

/// The files `halts` and `seven`, `made`, an executable of the first, and executables of a few words: `faults` and `exits`.
pub fn disk_of(alloc: Global) -> Result<BrokenDisk, AllocError> {
    let mut disk = BrokenDisk::new(alloc);
    disk.store("halts", HALTS.as_bytes())?;
    disk.store("seven", SEVEN.as_bytes())?;
    let _ = perform_words(alloc, &mut disk, "build -o made halts")?;
    disk.store("faults", executable(alloc, &FAULTS)?.as_slice())?;
    disk.store("exits", executable(alloc, &EXITS)?.as_slice())?;
    Ok(disk)
}

fn check_disks(
    rows: &[(&str, &str)],
    fault: FileFault,
    report: &mut Report,
) -> Result<(), AllocError> {
    for (words, wanted) in rows {
        begin(report, format_args!("{words} where the fault is {fault}"))?;
        let mut disk = disk_of(report.alloc)?;
        disk.fault = fault;
        let before = disk.kept();
        let line = line_of_words(report.alloc, &mut disk, *words)?;
        report.compare("line", *wanted, line.as_str())?;
        report.holds("no file is written", disk.kept() == before)?;
    }
    Ok(())
}

// What the words do on a disk of their own, with streams that take so many bytes a call, and fail at that call, or never where that is 0.
fn done_with(
    alloc: Global,
    words: &str,
    out: (usize, u64),
    err: (usize, u64),
) -> Result<Done, AllocError> {
    let words: Vec<&str> = words.split(' ').collect(alloc)?;
    let out = MemorySink::new(alloc, out.0, out.1);
    let err = MemorySink::new(alloc, err.0, err.1);
    perform_with(alloc, &mut disk_of(alloc)?, words.as_slice(), out, err)
}

// What they do where nothing fails.
fn done_whole(alloc: Global, words: &str) -> Result<Done, AllocError> {
    done_with(alloc, words, (1 << 30, 0), (1, 0))
}

fn check_cannot_write(said: &Done, report: &mut Report) -> Result<(), AllocError> {
    let line = said.line(report.alloc)?;
    let wanted = "126 qbec: cannot write standard output";
    report.compare("line", wanted, line.as_str())
}

// With an output that takes so many bytes a call, and fails at that call: a beginning of the whole output, of a byte for each call where a call takes one byte.
fn check_output(
    words: &str,
    whole: &Done,
    most: usize,
    fails_at: u64,
    report: &mut Report,
) -> Result<(), AllocError> {
    let said = done_with(report.alloc, words, (most, fails_at), (1, 0))?;
    let (all, length) = (whole.output.as_slice(), said.output.len());
    report.holds("a beginning", all.starts_with(said.output.as_slice()))?;
    if length == all.len() {
        let (wanted, line) = (whole.line(report.alloc)?, said.line(report.alloc)?);
        return report.compare("line", wanted.as_str(), line.as_str());
    }
    check_cannot_write(&said, report)?;
    let is_each_call = length as u64 == fails_at.saturating_sub(1);
    report.holds("as many bytes as calls", most > 1 || is_each_call)
}

fn check_outputs(words: &str, report: &mut Report) -> Result<(), AllocError> {
    let whole = done_whole(report.alloc, words)?;
    for (most, last) in [(1, 40), (3, 12), (100_000, 5)] {
        begin(
            report,
            format_args!("{words} to an output of {most} bytes a call"),
        )?;
        for fails_at in 0..last + 1 {
            check_output(words, &whole, most, fails_at, report)?;
        }
    }
    Ok(())
}

// An output that takes no byte.
fn check_closed(words: &str, report: &mut Report) -> Result<(), AllocError> {
    begin(
        report,
        format_args!("{words} to an output that takes nothing"),
    )?;
    let said = done_with(report.alloc, words, (0, 0), (1, 0))?;
    check_cannot_write(&said, report)?;
    report.holds("nothing goes out", said.output.is_empty())
}

// A standard error that fails changes neither status nor output.
fn check_message(words: &str, report: &mut Report) -> Result<(), AllocError> {
    begin(report, format_args!("{words} where standard error fails"))?;
    let whole = done_whole(report.alloc, words)?;
    for fails_at in 1..9 {
        let said = done_with(report.alloc, words, (1, 0), (2, fails_at))?;
        report.holds("status", said.status == whole.status)?;
        report.holds("output", said.output.as_slice() == whole.output.as_slice())?;
        let message = said.message.as_str();
        report.holds("message", whole.message.as_str().starts_with(message))?;
    }
    Ok(())
}

fn check_failure(
    failure: Failure<'_>,
    wanted: &str,
    report: &mut Report,
) -> Result<(), AllocError> {
    report.begin(wanted)?;
    let status = failure.status();
    let mut err = MemorySink::new(report.alloc, 1, 0);
    tell(&failure, &mut err);
    let line = str::from_utf8(err.bytes.as_slice()).unwrap_or("no text");
    let said = format!(in report.alloc; "{status} {line}")?;
    report.compare("line", wanted, said.as_str())
}

/// Checks what becomes of commands where files, streams and memory fail.
pub fn check(report: &mut Report) -> Result<(), AllocError> {
    check_disks(&ON_A_DEVICE, FileFault::Device, report)?;
    check_disks(&ON_MEMORY, FileFault::Memory, report)?;
    for words in OUTPUTS {
        check_outputs(words, report)?;
        check_closed(words, report)?;
    }
    for words in MESSAGES {
        check_message(words, report)?;
    }
    check_failure(
        Failure::Refused(Refusal::Memory),
        "126 qbec: refused E7\n",
        report,
    )?;
    let file = Failure::Refused(Refusal::File(LoadError::Memory));
    check_failure(file, "126 qbec: refused L6\n", report)?;
    check_failure(Failure::Memory, "126 qbec: memory\n", report)
}
