//! Access to memory byte by byte, for whatever a memory does not answer at once.

ghost use Rattle.std.specs.Prelude.{◌≡◌, ℕ, ◌+◌, ◌++◌, ◌^◌, ◌<◌, ◌≤◌, true, OnOk, OnErr};
ghost use Rattle.std.specs.Bool.{OnTrue};
ghost use Rattle.rv_isa.specs.Prelude.{allowed, bytes_at, each_of, number_at, stored};
ghost use Rattle.rv_machine.specs.Entries.{permits};
ghost use Rattle.rv_machine.specs.Mapped.{is_mapped};

use crate::ram::Ram;
use rv_isa::Permission;
use std::alloc::AllocError;

/// What is done with bytes.
#[derive(Clone, Copy)]
pub(crate) enum Access {
    Read,
    Write,
    Execute,
    /// Executed, and never written: code that stays.
    Fixed,
}

/// Whether a permission allows this access.
#[inline(always)]
pub(crate) fn permits(access: Access, permission: Permission) -> bool
    ensures { result ≡ permits access permission }
{
    match access {
        Access::Read => permission.readable,
        Access::Write => permission.writable,
        Access::Execute => permission.executable,
        Access::Fixed => permission.executable && !permission.writable,
    }
}

/// Whether there is memory at an address with this permission.
pub(crate) fn is_mapped(permission: Permission) -> bool
    ensures { result ≡ is_mapped permission }
{
    permission.readable || permission.writable || permission.executable
}

/// Whether all of `n` bytes from an address upward allow this access. None does past the last address.
#[inline(never)]
pub(crate) fn allowed<R: Ram>(ram: &R, access: Access, at: u64, n: u64) -> bool
    ensures value { result ≡ allowed (λ a. permits access (R.permission_at ram.now a)) at n }
    ensures mapped { OnTrue result (each_of (λ a. is_mapped (R.permission_at ram.now a)) at n ≡ true) }
{
    if n == 0 {
        return true;
    }
    if n - 1 > u64::MAX - at {
        return false;
    }
    for k in 0..n {
        if !permits(access, ram.permission(at + k)) {
            return false;
        }
    }
    true
}

/// The number of `n` mapped bytes, 1 to 8, lowest first.
#[inline(never)]
pub(crate) fn number<R: Ram>(ram: &R, at: u64, n: u64) -> u64
    requires some { 0 < n }
    requires at_most { n ≤ 8 }
    requires inside { at + n ≤ 2 ^ 64 }
    requires mapped { each_of (λ a. is_mapped (R.permission_at ram.now a)) at n ≡ true }
    ensures value { result ≡ number_at (R.byte_at ram.now) at n }
    ensures bound { result < 256 ^ n }
{
    let first = u64::from(ram.get(at));
    if n == 1 {
        first
    } else {
        first + 256 * number(ram, at + 1, n - 1)
    }
}

/// Sets `n` mapped bytes that are ready, at least 1, to the low bytes of `value`, lowest first.
#[inline(never)]
pub(crate) fn set_bytes<R: Ram>(ram: &mut R, at: u64, n: u64, value: u64)
    requires some { 0 < n }
    requires inside { at + n ≤ 2 ^ 64 }
    requires mapped { each_of (λ a. is_mapped (R.permission_at ram.old a)) at n ≡ true }
    requires ready { each_of (R.is_ready ram.old) at n ≡ true }
    ensures bytes { R.byte_at ram.new ≡ stored (R.byte_at ram.old) at n value }
    ensures permissions { R.permission_at ram.new ≡ R.permission_at ram.old }
    ensures stays_ready { R.is_ready ram.new ≡ R.is_ready ram.old }
{
    if n == 1 {
        ram.set(at, (value % 256) as u8);
    } else {
        set_bytes(ram, at + 1, n - 1, value / 256);
        ram.set(at, (value % 256) as u8);
    }
}

/// Appends `n` mapped bytes of memory to the output. Fails only for want of memory, and then leaves the output as it was.
#[inline(never)]
pub(crate) fn put_out<R: Ram>(
    ram: &R,
    at: u64,
    n: u64,
    output: &mut Vec<u8>,
) -> Result<(), AllocError>
    requires inside { at + n ≤ 2 ^ 64 }
    requires mapped { each_of (λ a. is_mapped (R.permission_at ram.now a)) at n ≡ true }
    ensures ok { OnOk result (output.new.items ≡ output.old.items ++ bytes_at (R.byte_at ram.now) at n) }
    ensures err { OnErr result (output.new.items ≡ output.old.items) }
    ensures some { OnErr result (0 < n) }
{
    let before = output.len();
    for k in 0..n {
        if output.push(ram.get(at + k)).is_err() {
            output.truncate(before);
            return Err(AllocError);
        }
    }
    Ok(())
}
