//! The texts of errors and faults that no table has.
use elf_file::LoadError;
use il_interp::error::RunError;
use il_reader::error::ReadError;
use il_types::CheckError;
use obj_link::LinkError;
use rv_machine::StartError;
use shell::{FileFault, SinkFault, WriteFault};
use std::alloc::AllocError;
use std::fmt::Display;
use std::process::Abort;

/// Stops the test where an error has another text.
fn is_shown<T: Display>(
    rt: &(impl Abort + AllocGlobal),
    error: &T,
    text: &str,
) -> Result<(), AllocError> {
    let shown = format!(in rt.alloc(); "{error}")?;
    assert_eq!(rt; shown.as_str(), text);
    Ok(())
}

#[test]
fn errors_and_faults_are_shown(rt: HostRuntime) -> Result<(), AllocError> {
    is_shown(&rt, &RunError::Words, "E8")?;
    is_shown(&rt, &RunError::Memory, "E7")?;
    is_shown(&rt, &CheckError::Limit, "E6")?;
    is_shown(&rt, &ReadError::Memory, "memory")?;
    is_shown(&rt, &CheckError::Memory, "E7")?;
    is_shown(&rt, &LinkError::Memory, "E7")?;
    is_shown(&rt, &LoadError::Memory, "L6")?;
    let passed = "the argument words pass a limit";
    is_shown(&rt, &StartError::Arguments, passed)?;
    is_shown(&rt, &StartError::Memory, "out of memory")?;
    let failed = WriteFault { written: 3 };
    is_shown(&rt, &failed, "a write failed after 3 bytes")?;
    is_shown(&rt, &SinkFault, "a write failed")?;
    is_shown(&rt, &FileFault::Device, "the device refused")?;
    is_shown(&rt, &FileFault::Memory, "out of memory")
}
