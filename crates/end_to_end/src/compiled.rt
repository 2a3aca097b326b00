//! Programs compiled, and the machine's runs of their files.
use crate::interpreted::refusal_told;
use crate::told::stop_told;
use elf_file::read_image;
use qbec::compile::compile;
use regalloc::strategy::Strategy;
use rv_machine::{Machine, Ram, StartError};
use std::alloc::{AllocError, Global};
use test_report::report::Report;
use test_report::told::Told;

/// The executable of texts by this strategy, or why there is none.
pub fn compile_with(
    alloc: Global,
    texts: &[&[u8]],
    allocator: &mut dyn Strategy,
) -> Result<Result<Vec<u8>, String>, AllocError> {
    match compile(alloc, texts, allocator) {
        Ok(file) => Ok(Ok(file)),
        Err(error) => Ok(Err(refusal_told(alloc, error)?)),
    }
}

/// The executable of texts by this strategy. It is empty where there is none, which the report has then.
pub fn file_by(
    what: &str,
    texts: &[&[u8]],
    allocator: &mut dyn Strategy,
    report: &mut Report,
) -> Result<Vec<u8>, AllocError> {
    match compile_with(report.alloc, texts, allocator)? {
        Ok(file) => Ok(file),
        Err(why) => {
            report.fail(what, "a file", why.as_str())?;
            Ok(Vec::new(report.alloc))
        }
    }
}

/// How the machine ends with the file and these words, in so many instructions at most.
pub fn ran<R: Ram>(
    alloc: Global,
    file: &[u8],
    words: &[&[u8]],
    limit: u64,
) -> Result<Told, AllocError> {
    let loaded = match read_image(alloc, file) {
        Ok(loaded) => loaded,
        Err(error) => return Told::unrun(alloc, format!(in alloc; "{error}")?.as_str()),
    };
    let started: Result<Machine<R>, StartError> = Machine::start(alloc, &loaded, words);
    let Ok(machine) = started else {
        return Told::unrun(alloc, "E8");
    };
    let (output, stop) = machine.run(alloc, limit);
    Ok(Told {
        end: stop_told(alloc, stop)?,
        output,
    })
}
