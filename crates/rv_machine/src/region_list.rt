//! The regions of a program's memory.

ghost use Rattle.rv_isa.specs.declared.abi.TheConstants.{ARGUMENT_BYTES};
ghost use Rattle.std.specs.Prelude.{◌≡◌, ℕ, ◌+◌, ◌≤◌, true, IfOk, length};
ghost use Rattle.rv_machine.specs.Mapped.{permission_in, start_byte};
ghost use Rattle.rv_machine.specs.Regions.{AllFull, IsStack, Shows, ShowsAll, region_byte, region_permission};

use crate::regions::{Region, filled, permission_of};
use elf_file::{Loaded, Segment};
use rv_isa::{Permission, abi};
use std::alloc::{AllocError, Global};

/// The region of a segment, with all its bytes where they are wanted `whole`.
fn region_of(alloc: Global, segment: &Segment, whole: bool) -> Result<Region, AllocError>
    ensures shows { IfOk result (λ r. Shows segment.now r) }
    ensures full { whole ≡ true → IfOk result (λ r. length r.bytes.items ≡ r.size) }
{
    let size = segment.size();
    let bytes = filled(
        alloc,
        segment.file_bytes(),
        if whole { size as usize } else { 0 },
    )?;
    Ok(Region {
        address: segment.address(),
        size,
        permission: permission_of(segment.flags()),
        bytes,
    })
}

/// The region of the stack and the argument bytes above it, with all its bytes where they are wanted `whole`.
fn stack_region(alloc: Global, arguments: u64, whole: bool) -> Result<Region, AllocError>
    requires { arguments ≤ ARGUMENT_BYTES }
    ensures shows { IfOk result (λ r. IsStack arguments r) }
    ensures full { whole ≡ true → IfOk result (λ r. length r.bytes.items ≡ r.size) }
{
    let size = abi::STACK_SIZE + arguments;
    let bytes = filled(alloc, &[], if whole { size as usize } else { 0 })?;
    Ok(Region {
        address: abi::STACK_BOTTOM,
        size,
        permission: Permission {
            readable: true,
            writable: true,
            executable: false,
        },
        bytes,
    })
}

/// The regions of the segments, in order.
fn segment_regions(
    alloc: Global,
    segments: &[Segment],
    whole: bool,
) -> Result<Vec<Region>, AllocError>
    ensures shows { IfOk result (λ v. ShowsAll segments.now v.items) }
    ensures full { whole ≡ true → IfOk result (λ v. AllFull v.items) }
{
    let mut regions = Vec::new(alloc);
    for segment in segments {
        let region = region_of(alloc, segment, whole)?;
        regions.push(region)?;
    }
    Ok(regions)
}

/// The regions of the memory at the start of a program: those of the file's segments, and that of the stack.
pub fn start_regions(
    alloc: Global,
    file: &Loaded,
    arguments: u64,
    whole: bool,
) -> Result<Vec<Region>, AllocError>
    requires { arguments ≤ ARGUMENT_BYTES }
    ensures permissions { IfOk result (λ v. (at : ℕ) → region_permission v.items at ≡ permission_in file.now arguments at) }
    ensures bytes { IfOk result (λ v. (at : ℕ) → region_byte v.items at ≡ start_byte file.now at) }
    ensures full { whole ≡ true → IfOk result (λ v. AllFull v.items) }
{
    let mut regions = segment_regions(alloc, file.segments(), whole)?;
    let stack = stack_region(alloc, arguments, whole)?;
    regions.push(stack)?;
    Ok(regions)
}
