//! The pages of a memory.

ghost use Rattle.std.specs.Prelude.{◌≡◌, ℕ, ◌+◌, ◌-◌, ◌*◌, ◌%◌, ◌≤◌, ◌<◌, ◌^◌, true, IsSome, IfSome, List, slice_index, IfOk, OnOk, OnSome, Some, length, option_copied};
ghost use Rattle.std.specs.Bool.{OnFalse, OnTrue};
ghost use Rattle.rv_isa.specs.Prelude.{updated};
ghost use Rattle.rv_machine.specs.declared.regions.Region.{Region};
ghost use Rattle.rv_machine.specs.Mapped.{IsRead, IsWritten};
ghost use Rattle.rv_machine.specs.Pages.{AllPermit, IsCopy, IsCopyOf, IsPartCopy, PageOverwrites, WritesPage, is_made, page_in, paged_byte};
ghost use Rattle.rv_machine.specs.Regions.{region_byte, region_permission};
ghost use Rattle.rv_machine.specs.Width.{bytes_of};

use crate::lookup::{byte_at, first_of, read, spans};
use crate::page::{PAGE_SIZE, Page};
use crate::regions::{Region, filled, number, write_number};
use crate::width::Width;
use std::alloc::{AllocError, Global};

/// Page `k`, if it was made.
#[inline(always)]
pub fn page_of(pages: &[Option<Page>], k: usize) -> Option<&Page>
    ensures { option_copied result ≡ page_in pages.now k }
{
    if k < pages.len() {
        pages[k].as_ref()
    } else {
        None
    }
}

/// Lengthens the table to `count` pages by pages that are not made.
fn extend_to(pages: &mut Vec<Option<Page>>, count: usize) -> Result<(), AllocError>
    ensures long { OnOk result (count ≤ length pages.new.items) }
    ensures same { (k : ℕ) → page_in pages.new.items k ≡ page_in pages.old.items k }
{
    for made in pages.len()..count {
        let _ = made;
        pages.push(None)?;
    }
    Ok(())
}

/// The bytes of a region from `at` on, no more than a page of them.
fn part_of(region: &Region, at: u64) -> &[u8]
    ensures few { length result.now ≤ 4096 }
    ensures bytes { (j : ℕ) → j < 4096 → slice_index result.now j ≡ slice_index region.now.bytes.items (at - region.now.address + j) }
{
    let length = region.bytes.len();
    let from = (at.saturating_sub(region.address) as usize).min(length);
    let to = from + (length - from).min(PAGE_SIZE as usize);
    &region.bytes[from..to]
}

/// Page `k`, of which all addresses lie in one region.
fn page_in_region(alloc: Global, region: &Region, k: u64) -> Result<Page, AllocError>
    requires { k < 2 ^ 52 }
    ensures { IfOk result (IsCopyOf region.now k) }
{
    let bytes = filled(alloc, part_of(region, PAGE_SIZE * k), PAGE_SIZE as usize)?;
    Ok(Page {
        bytes,
        low: 0,
        high: PAGE_SIZE as usize,
        readable: region.permission.readable,
        writable: region.permission.writable,
    })
}

/// The bytes of page `k`, one by one, as the regions have them.
fn page_bytes(alloc: Global, regions: &[Region], k: u64) -> Result<Vec<u8>, AllocError>
    requires { k < 2 ^ 52 }
    ensures number { IfOk result (λ v. length v.items ≡ 4096) }
    ensures bytes { IfOk result (λ v. (j : ℕ) → j < 4096 → slice_index v.items j ≡ region_byte regions.now (4096 * k + j)) }
{
    let mut bytes = Vec::with_capacity(alloc, PAGE_SIZE as usize)?;
    for j in 0..PAGE_SIZE {
        bytes.push(byte_at(regions, PAGE_SIZE * k + j))?;
    }
    Ok(bytes)
}

/// Page `k`, of which some addresses lie in the region and others may not.
fn page_with(alloc: Global, regions: &[Region], region: &Region, k: u64) -> Result<Page, AllocError>
    requires { k < 2 ^ 52 }
    ensures { IfOk result (IsPartCopy regions.now region.now k) }
{
    let bytes = page_bytes(alloc, regions, k)?;
    let start = PAGE_SIZE * k;
    let low = region.address.saturating_sub(start).min(PAGE_SIZE);
    let high = (region.address + region.size)
        .saturating_sub(start)
        .min(PAGE_SIZE);
    Ok(Page {
        bytes,
        low: low as usize,
        high: high as usize,
        readable: region.permission.readable,
        writable: region.permission.writable,
    })
}

/// Page `k`, of which nothing is known: it is read and written byte by byte.
fn page_of_none(alloc: Global, regions: &[Region], k: u64) -> Result<Page, AllocError>
    requires { k < 2 ^ 52 }
    ensures { IfOk result (IsCopy regions.now k) }
{
    let bytes = page_bytes(alloc, regions, k)?;
    Ok(Page {
        bytes,
        low: 0,
        high: 0,
        readable: false,
        writable: false,
    })
}

/// A new page `k` with what the regions hold there.
fn new_page(alloc: Global, regions: &[Region], k: u64) -> Result<Page, AllocError>
    requires { k < 2 ^ 52 }
    ensures { IfOk result (IsCopy regions.now k) }
{
    let Some(i) = first_of(regions, PAGE_SIZE * k, PAGE_SIZE - 1) else {
        return page_of_none(alloc, regions, k);
    };
    let region = &regions[i];
    if spans(PAGE_SIZE * k, PAGE_SIZE - 1, region) {
        page_in_region(alloc, region, k)
    } else {
        page_with(alloc, regions, region, k)
    }
}

/// Makes page `k`, if it was not made yet; no byte changes.
fn make_page(
    alloc: Global,
    regions: &[Region],
    pages: &mut Vec<Option<Page>>,
    k: u64,
) -> Result<(), AllocError>
    requires small { k < 2 ^ 52 }
    requires permits { AllPermit regions.now pages.old.items }
    ensures made { OnOk result (IsSome (page_in pages.new.items k)) }
    ensures stay { (j : ℕ) → IsSome (page_in pages.old.items j) → IsSome (page_in pages.new.items j) }
    ensures bytes { paged_byte regions.now pages.new.items ≡ paged_byte regions.now pages.old.items }
    ensures permits { AllPermit regions.now pages.new.items }
{
    if page_of(pages, k as usize).is_some() {
        return Ok(());
    }
    extend_to(pages, k as usize + 1)?;
    let page = new_page(alloc, regions, k)?;
    pages[k as usize] = Some(page);
    Ok(())
}

/// Makes the pages from `first` to `last` that were not made yet; no byte changes.
pub fn make_pages(
    alloc: Global,
    regions: &[Region],
    pages: &mut Vec<Option<Page>>,
    first: u64,
    last: u64,
) -> Result<(), AllocError>
    requires small { last < 2 ^ 52 }
    requires permits { AllPermit regions.now pages.old.items }
    ensures made { OnOk result ((j : ℕ) → first ≤ j → j ≤ last → IsSome (page_in pages.new.items j)) }
    ensures bytes { paged_byte regions.now pages.new.items ≡ paged_byte regions.now pages.old.items }
    ensures permits { AllPermit regions.now pages.new.items }
{
    for k in first..last + 1 {
        make_page(alloc, regions, pages, k)?;
    }
    Ok(())
}

/// Writes the low bytes of a number at a place of the page.
#[inline(always)]
fn write_page(page: &mut Page, place: usize, width: Width, value: u64)
    requires { place + bytes_of width ≤ 4096 }
    ensures { PageOverwrites place (bytes_of width) value page.old page.new }
{
    write_number(&mut page.bytes.as_mut_slice()[place..], width, value);
}

/// Writes the low bytes of a number at a place of page `k`, which was made.
#[inline(always)]
fn write_at(pages: &mut [Option<Page>], k: usize, place: usize, width: Width, value: u64)
    requires long { k < length pages.old }
    requires made { IsSome (page_in pages.old k) }
    requires inside { place + bytes_of width ≤ 4096 }
    ensures { WritesPage k place (bytes_of width) value pages.old pages.new }
{
    if let Some(page) = &mut pages[k] {
        write_page(page, place, width, value);
    }
}

/// The number at `at`, where its bytes may be read and lie in one page and one region.
#[inline(always)]
pub fn paged_read(regions: &[Region], pages: &[Option<Page>], at: u64, width: Width) -> Option<u64>
    requires { AllPermit regions.now pages.now }
    ensures { IfSome result (IsRead (region_permission regions.now) (paged_byte regions.now pages.now) at (bytes_of width)) }
{
    let place = (at % PAGE_SIZE) as usize;
    let end = place + width.bytes() as usize;
    let Some(page) = page_of(pages, (at / PAGE_SIZE) as usize) else {
        return read_unmade(regions, at, width);
    };
    if !page.readable || place < page.low || page.high < end {
        return None;
    }
    Some(number(&page.bytes[place..], width))
}

/// The number at `at` as the regions have it, where its bytes may be read and lie in one page and one region.
fn read_unmade(regions: &[Region], at: u64, width: Width) -> Option<u64>
    ensures read { IfSome result (IsRead (region_permission regions.now) (region_byte regions.now) at (bytes_of width)) }
    ensures room { OnSome result (at % 4096 + bytes_of width ≤ 4096) }
{
    if at % PAGE_SIZE + width.bytes() > PAGE_SIZE {
        return None;
    }
    read(regions, at, width)
}

/// Writes the low bytes of a number at `at`, where they may be written and lie in one page that was made and in one region, and says whether it did.
#[inline(always)]
pub fn paged_write(pages: &mut [Option<Page>], at: u64, width: Width, value: u64) -> bool
    ensures done { (rs : List Region) → AllPermit rs pages.old → OnTrue result (IsWritten (region_permission rs) (paged_byte rs pages.old) (paged_byte rs pages.new) at (bytes_of width) value) }
    ensures declined { OnFalse result (pages.new ≡ pages.old) }
    ensures permits { (rs : List Region) → AllPermit rs pages.old → AllPermit rs pages.new }
{
    let k = (at / PAGE_SIZE) as usize;
    let place = (at % PAGE_SIZE) as usize;
    let end = place + width.bytes() as usize;
    let Some(page) = page_of(pages, k) else {
        return false;
    };
    if !page.writable || place < page.low || page.high < end {
        return false;
    }
    write_at(pages, k, place, width, value);
    true
}

/// Writes a byte in a page that was made.
pub fn paged_set(pages: &mut [Option<Page>], at: u64, byte: u8)
    requires { is_made pages.old at ≡ true }
    ensures bytes { (rs : List Region) → paged_byte rs pages.new ≡ updated (paged_byte rs pages.old) at byte }
    ensures permits { (rs : List Region) → AllPermit rs pages.old → AllPermit rs pages.new }
    ensures stay { is_made pages.new ≡ is_made pages.old }
{
    write_at(
        pages,
        (at / PAGE_SIZE) as usize,
        (at % PAGE_SIZE) as usize,
        Width::Byte,
        u64::from(byte),
    );
}
