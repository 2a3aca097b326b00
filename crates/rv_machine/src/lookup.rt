//! What regions hold at an address, and whole numbers in one of them.

ghost use Rattle.std.specs.Prelude.{◌≡◌, ℕ, ◌+◌, ◌-◌, ◌≤◌, ◌<◌, ◌^◌, true, IfSome, IsSome, slice_index, length, option_copied};
ghost use Rattle.rv_isa.specs.Prelude.{number_at, stored, updated};
ghost use Rattle.rv_machine.specs.Mapped.{IsRead, IsWritten, is_mapped};
ghost use Rattle.std.specs.Bool.{OnFalse, OnTrue};
ghost use Rattle.rv_machine.specs.Regions.{AllFull, IsFirst, IsWhole, Overwrites, contains, has_address, region_at, region_byte, region_permission, spans, touches};
ghost use Rattle.rv_machine.specs.Width.{bytes_of};

use crate::regions::{NOTHING_ALLOWED, Region, number, write_number};
use crate::width::Width;
use rv_isa::Permission;

/// Whether the region has the address.
#[inline(always)]
fn has_address(at: u64, region: &Region) -> bool
    ensures { result ≡ has_address at region.now }
{
    region.address <= at && at < region.address + region.size
}

/// The region that has the address.
fn region_at(regions: &[Region], at: u64) -> Option<&Region>
    ensures { option_copied result ≡ region_at regions.now at }
{
    regions.iter().find(|region| has_address(at, region))
}

/// What is allowed at an address.
pub fn permission_at(regions: &[Region], at: u64) -> Permission
    ensures { result ≡ region_permission regions.now at }
{
    match region_at(regions, at) {
        Some(region) => region.permission,
        None => NOTHING_ALLOWED,
    }
}

/// The byte at an address, 0 where there is none.
pub fn byte_at(regions: &[Region], at: u64) -> u8
    ensures { result ≡ region_byte regions.now at }
{
    match region_at(regions, at) {
        Some(region) => byte_of(region, at),
        None => 0,
    }
}

/// The byte of a region at one of its addresses, 0 past its bytes.
fn byte_of(region: &Region, at: u64) -> u8
    ensures { result ≡ slice_index region.now.bytes.items (at - region.now.address) }
{
    let place = at.saturating_sub(region.address) as usize;
    region.bytes.get(place).copied().unwrap_or(0)
}

/// Whether the region has one of the `n` addresses from `at` upward.
#[inline(always)]
fn touches(at: u64, n: u64, region: &Region) -> bool
    requires { at + n < 2 ^ 64 }
    ensures { result ≡ touches at n region.now }
{
    region.address < at + n && at < region.address + region.size
}

/// Whether the region holds bytes for all of the `n` addresses from `at` upward.
#[inline(always)]
fn contains(at: u64, n: u64, region: &Region) -> bool
    requires { at + n < 2 ^ 64 }
    ensures { result ≡ contains at n region.now }
{
    region.address <= at && at + n - region.address <= region.bytes.len() as u64
}

/// The region that holds all bytes of a number at `at`, if there is one and no region before it has one of their addresses.
#[inline(always)]
fn whole(regions: &[Region], at: u64, width: Width) -> Option<usize>
    ensures whole { IfSome result (IsWhole at (bytes_of width) regions.now) }
    ensures byte { width ≡ Width.Byte → AllFull regions.now → is_mapped (region_permission regions.now at) ≡ true → IsSome result }
{
    if at > u64::MAX - 8 {
        return None;
    }
    let n = width.bytes();
    for (k, region) in regions.iter().enumerate() {
        if touches(at, n, region) {
            return if contains(at, n, region) {
                Some(k)
            } else {
                None
            };
        }
    }
    None
}

/// The number at `at`, which region `k` holds whole.
#[inline(always)]
fn number_in(regions: &[Region], k: usize, at: u64, width: Width) -> u64
    requires { IsWhole at (bytes_of width) regions.now k }
    ensures value { result ≡ number_at (region_byte regions.now) at (bytes_of width) }
    ensures small { result < 256 ^ bytes_of width }
{
    let region = &regions[k];
    number(&region.bytes[(at - region.address) as usize..], width)
}

/// Writes the low bytes of a number at `at` into a region that has bytes there.
#[inline(always)]
fn write_to(region: &mut Region, at: u64, width: Width, value: u64)
    requires { contains at (bytes_of width) region.old ≡ true }
    ensures { Overwrites at (bytes_of width) value region.old region.new }
{
    let place = (at - region.address) as usize;
    write_number(&mut region.bytes.as_mut_slice()[place..], width, value);
}

/// Writes the low bytes of a number at `at`, where region `k` holds them whole.
#[inline(always)]
fn write_in(regions: &mut [Region], k: usize, at: u64, width: Width, value: u64)
    requires { IsWhole at (bytes_of width) regions.old k }
    ensures bytes { region_byte regions.new ≡ stored (region_byte regions.old) at (bytes_of width) value }
    ensures permissions { region_permission regions.new ≡ region_permission regions.old }
    ensures full { AllFull regions.old → AllFull regions.new }
{
    write_to(&mut regions[k], at, width, value);
}

/// The number at `at`, where its bytes may be read and one region holds them all.
#[inline(always)]
pub fn read(regions: &[Region], at: u64, width: Width) -> Option<u64>
    ensures { IfSome result (IsRead (region_permission regions.now) (region_byte regions.now) at (bytes_of width)) }
{
    let k = whole(regions, at, width)?;
    if !regions[k].permission.readable {
        return None;
    }
    Some(number_in(regions, k, at, width))
}

/// Writes the low bytes of a number at `at`, where they may be written and one region holds them all, and says whether it did.
#[inline(always)]
pub fn write(regions: &mut [Region], at: u64, width: Width, value: u64) -> bool
    ensures done { OnTrue result (IsWritten (region_permission regions.old) (region_byte regions.old) (region_byte regions.new) at (bytes_of width) value) }
    ensures declined { OnFalse result (region_byte regions.new ≡ region_byte regions.old) }
    ensures permissions { region_permission regions.new ≡ region_permission regions.old }
    ensures full { AllFull regions.old → AllFull regions.new }
{
    let Some(k) = whole(regions, at, width) else {
        return false;
    };
    if !regions[k].permission.writable {
        return false;
    }
    write_in(regions, k, at, width, value);
    true
}

/// Writes a byte at a mapped address, where every region holds all of its bytes.
pub fn write_byte(regions: &mut [Region], at: u64, byte: u8)
    requires mapped { is_mapped (region_permission regions.old at) ≡ true }
    requires full { AllFull regions.old }
    ensures bytes { region_byte regions.new ≡ updated (region_byte regions.old) at byte }
    ensures permissions { region_permission regions.new ≡ region_permission regions.old }
    ensures full { AllFull regions.new }
{
    if let Some(k) = whole(regions, at, Width::Byte) {
        write_in(regions, k, at, Width::Byte, u64::from(byte));
    }
}

/// Whether the region has one of the addresses from `at` to `at + more`.
fn reaches(at: u64, more: u64, region: &Region) -> bool
    requires { at + more < 2 ^ 64 }
    ensures { result ≡ touches at (more + 1) region.now }
{
    region.address <= at + more && at < region.address + region.size
}

/// Whether the region has all of the addresses from `at` to `at + more`.
pub fn spans(at: u64, more: u64, region: &Region) -> bool
    requires { at + more < 2 ^ 64 }
    ensures { result ≡ spans at (more + 1) region.now }
{
    region.address <= at && at + more < region.address + region.size
}

/// The first region that has one of the addresses from `at` to `at + more`.
pub fn first_of(regions: &[Region], at: u64, more: u64) -> Option<usize>
    requires { at + more < 2 ^ 64 }
    ensures { IfSome result (IsFirst at (more + 1) regions.now) }
{
    for (k, region) in regions.iter().enumerate() {
        if reaches(at, more, region) {
            return Some(k);
        }
    }
    None
}
