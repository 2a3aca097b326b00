//! Memory with one vector for each mapped range.

ghost use Rattle.rv_machine.specs.Regions.{AllFull, region_byte, region_permission};

use crate::lookup::{byte_at, permission_at, read, write, write_byte};
use crate::ram::Ram;
use crate::region_list::start_regions;
use crate::regions::Region;
use crate::width::Width;
use elf_file::Loaded;
use rv_isa::Permission;
use std::alloc::{AllocError, Global};

/// Memory in one vector for each mapped range: each segment, and the stack with the arguments above it.
///
/// All of it is made at once, so that [`Ram::ready`] is never refused.
#[derive(Drop)]
pub struct FlatRam {
    regions: Vec<Region>,
    ghost full: { AllFull regions.items },
}

impl Ram for FlatRam {
    ghost use Rattle.std.specs.Prelude.{true, false};

    ghost byte_at = { λ r. region_byte r.regions.items };

    ghost permission_at = { λ r. region_permission r.regions.items };

    ghost is_ready = { λ r at. true };

    ghost refuses = { false };

    fn of(alloc: Global, file: &Loaded, arguments: u64) -> Result<FlatRam, AllocError> {
        let regions = start_regions(alloc, file, arguments, true)?;
        Ok(FlatRam { regions })
    }

    fn permission(&self, at: u64) -> Permission {
        permission_at(&self.regions, at)
    }

    fn get(&self, at: u64) -> u8 {
        byte_at(&self.regions, at)
    }

    fn ready(&mut self, at: u64, n: u64) -> Result<(), AllocError> {
        let _ = at;
        let _ = n;
        Ok(())
    }

    fn set(&mut self, at: u64, byte: u8) {
        write_byte(self.regions.as_mut_slice(), at, byte);
    }

    #[inline(always)]
    fn load(&self, at: u64, width: Width) -> Option<u64> {
        read(&self.regions, at, width)
    }

    #[inline(always)]
    fn store(&mut self, at: u64, width: Width, value: u64) -> bool {
        write(self.regions.as_mut_slice(), at, width, value)
    }
}
