//! Sinks that take little, and files in memory.
use shell::write_exe::{write_exe, write_parts};
use shell::{Access, Disk, MemoryDisk, MemorySink, WriteFault};
use std::alloc::Global;
use std::process::Abort;
use std::test::Fail;

fn holds(rt: &impl Abort, sink: &MemorySink, bytes: &[u8], faults: u64) {
    assert_eq!(rt; sink.bytes.as_slice(), bytes);
    assert_eq!(rt; sink.faults, faults);
}

#[test]
fn all_goes_out_or_a_beginning(rt: HostRuntime) -> Result<(), Fail> {
    let table: [(usize, u64, Result<(), WriteFault>, &[u8], u64); 6] = [
        (100, 0, Ok(()), b"seven77", 0),
        (1, 0, Ok(()), b"seven77", 0),
        (3, 0, Ok(()), b"seven77", 0),
        (3, 3, Err(WriteFault { written: 6 }), b"seven7", 1),
        (1, 1, Err(WriteFault { written: 0 }), b"", 1),
        (0, 0, Err(WriteFault { written: 0 }), b"", 1),
    ];
    for (most, fails_at, answer, bytes, faults) in table {
        let mut sink = MemorySink::new(rt.alloc(), most, fails_at);
        assert_eq!(rt; write_exe(b"seven77", &mut sink), answer);
        holds(&rt, &sink, bytes, faults);
    }
    // nothing asks for nothing
    let mut sink = MemorySink::new(rt.alloc(), 0, 1);
    assert_eq!(rt; write_exe(b"", &mut sink), Ok(()));
    assert_eq!(rt; sink.calls, 0);
    Ok(())
}

/// Puts three parts to a sink that takes three bytes at once.
fn parts_go_out(
    rt: &impl Abort,
    alloc: Global,
    fails_at: u64,
    answer: Result<(), WriteFault>,
    bytes: &[u8],
    faults: u64,
) {
    let parts: [&[u8]; 3] = [b"number ", b"00ff", b"\n"];
    let mut sink = MemorySink::new(alloc, 3, fails_at);
    assert_eq!(rt; write_parts(&parts, &mut sink), answer);
    holds(rt, &sink, bytes, faults);
}

#[test]
fn parts_go_out_one_after_another(rt: HostRuntime) -> Result<(), Fail> {
    parts_go_out(&rt, rt.alloc(), 0, Ok(()), b"number 00ff\n", 0);
    let answer = Err(WriteFault { written: 3 });
    parts_go_out(&rt, rt.alloc(), 5, answer, b"number 00f", 1);
    Ok(())
}

/// Whether one call of a disk was refused, which was of this path.
fn is_refused(disk: &MemoryDisk, access: Access, path: &str) -> bool {
    match disk.faults.device.as_slice() {
        [call] => call.access == access && call.path.as_str() == path,
        _ => false,
    }
}

fn has(disk: &MemoryDisk, path: &str, bytes: &[u8]) -> bool {
    disk.find(path) == Some(bytes)
}

#[test]
fn files_in_memory_hold_what_was_written_last(rt: HostRuntime) -> Result<(), Fail> {
    let mut disk = MemoryDisk::new(rt.alloc());
    assert!(rt; disk.read("text").is_err());
    assert!(rt; disk.write("text", b"first").is_ok());
    assert!(rt; disk.write("other", b"second").is_ok());
    assert!(rt; disk.write("text", b"third").is_ok());
    assert!(rt; has(&disk, "text", b"third"));
    assert!(rt; has(&disk, "other", b"second"));
    assert_eq!(rt; disk.faults.memory, 0);
    assert!(rt; is_refused(&disk, Access::Read, "text"));
    Ok(())
}
