//! How fast the machine runs.
use elf_file::{read_image, write_image};
use obj_link::Image;
use rv_machine::{FlatRam, Machine, PageRam, Ram, Stop};
use std::alloc::{AllocError, Global};

/// addi a0, a0, 1; xor a1, a1, a0; slli a2, a0, 3; add a3, a3, a2; addi t0, t0, -1; bne t0, x0, back to the first
const ALU: [u32; 6] = [
    0x00150513, 0x00a5c5b3, 0x00351613, 0x00c686b3, 0xfff28293, 0xfe0296e3,
];

/// lui s0, 0x11; ld a1, 0(s0); add a1, a1, a0; sd a1, 8(s0); addi a0, a0, 1; addi t0, t0, -1; bne t0, x0, back to the load
const MEMORY: [u32; 7] = [
    0x00011437, 0x00043583, 0x00a585b3, 0x00b43423, 0x00150513, 0xfff28293, 0xfe0296e3,
];

// An executable of this code with a slot of data.
fn executable(alloc: Global, code: &[u32]) -> Option<Vec<u8>> {
    let code = code.to_vec(alloc).ok()?;
    let data = vec![in alloc; 0u8; 16].ok()?;
    if code.is_empty() || code.len() > 100 || data.len() != 16 {
        return None;
    }
    write_image(alloc, &Image::new(code, data)).ok()
}

/// Runs the code for so many instructions; `None` where there is no memory for it.
fn stop_of<R: Ram>(alloc: Global, code: &[u32], limit: u64) -> Option<Stop> {
    let loaded = read_image(alloc, executable(alloc, code)?.as_slice()).ok()?;
    let machine: Machine<R> = Machine::start(alloc, &loaded, &[]).ok()?;
    let (_, stop) = machine.run(alloc, limit);
    Some(stop)
}

/// How the machine ends after so many instructions of a loop of operations and a branch, or with a load and a store, over flat memory or pages.
pub fn run_machine(
    alloc: Global,
    stores: bool,
    paged: bool,
    limit: u64,
) -> Result<String, AllocError> {
    let code: &[u32] = if stores { &MEMORY } else { &ALU };
    let stop = if paged {
        stop_of::<PageRam>(alloc, code, limit)
    } else {
        stop_of::<FlatRam>(alloc, code, limit)
    };
    match stop {
        Some(stop) => format!(in alloc; "{stop:?} after at most {limit} instructions"),
        None => String::from_str(alloc, "no memory"),
    }
}
