//! Memory in pages that are made when they are first written.

ghost use Rattle.rv_machine.specs.Pages.{AllPermit, is_made, paged_byte};
ghost use Rattle.rv_machine.specs.Regions.{region_permission};

use crate::lookup::{byte_at, permission_at};
use crate::page::{PAGE_SIZE, Page};
use crate::pages::{make_pages, page_of, paged_read, paged_set, paged_write};
use crate::ram::Ram;
use crate::region_list::start_regions;
use crate::regions::Region;
use crate::width::Width;
use elf_file::Loaded;
use rv_isa::Permission;
use std::alloc::{AllocError, Global};

/// Memory in pages of 4096 bytes.
///
/// At the start it holds the bytes of the file alone. A page is made when [`Ram::ready`] first names a byte of it, and then holds what stood there;
/// until then its bytes are the file's, and zeros where the file has none. So what a program never writes takes no memory, and `ready` may be
/// refused.
#[derive(Drop)]
pub struct PageRam {
    regions: Vec<Region>,
    pages: Vec<Option<Page>>,
    alloc: Global,
    ghost permits: { AllPermit regions.items pages.items },
}

impl Ram for PageRam {
    ghost use Rattle.std.specs.Prelude.{true};

    ghost byte_at = { λ r. paged_byte r.regions.items r.pages.items };

    ghost permission_at = { λ r. region_permission r.regions.items };

    ghost is_ready = { λ r. is_made r.pages.items };

    ghost refuses = { true };

    fn of(alloc: Global, file: &Loaded, arguments: u64) -> Result<PageRam, AllocError> {
        let regions = start_regions(alloc, file, arguments, false)?;
        Ok(PageRam {
            regions,
            pages: Vec::new(alloc),
            alloc,
        })
    }

    fn permission(&self, at: u64) -> Permission {
        permission_at(&self.regions, at)
    }

    fn get(&self, at: u64) -> u8 {
        match page_of(&self.pages, (at / PAGE_SIZE) as usize) {
            Some(page) => page.bytes[(at % PAGE_SIZE) as usize],
            None => byte_at(&self.regions, at),
        }
    }

    fn ready(&mut self, at: u64, n: u64) -> Result<(), AllocError> {
        if n == 0 {
            return Ok(());
        }
        make_pages(
            self.alloc,
            &self.regions,
            &mut self.pages,
            at / PAGE_SIZE,
            (at + (n - 1)) / PAGE_SIZE,
        )
    }

    fn set(&mut self, at: u64, byte: u8) {
        paged_set(self.pages.as_mut_slice(), at, byte);
    }

    #[inline(always)]
    fn load(&self, at: u64, width: Width) -> Option<u64> {
        paged_read(&self.regions, &self.pages, at, width)
    }

    #[inline(always)]
    fn store(&mut self, at: u64, width: Width, value: u64) -> bool {
        paged_write(self.pages.as_mut_slice(), at, width, value)
    }
}
