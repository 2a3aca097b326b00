//! Memory as a machine needs it.

ghost use Rattle.rv_isa.specs.declared.abi.TheConstants.{ARGUMENT_BYTES};
ghost use Rattle.std.specs.Prelude.{◌≡◌, ℕ, ◌+◌, ◌≤◌, ◌^◌, Bool, true, IfOk, IfSome, OnOk, OnErr};
ghost use Rattle.std.specs.Bool.{OnTrue, OnFalse};
ghost use Rattle.rv_isa.specs.declared.permission.Permission.{Permission};
ghost use Rattle.rv_isa.specs.Prelude.{each_of, updated};
ghost use Rattle.rv_machine.specs.Mapped.{is_mapped, permission_in, start_byte, IsRead, IsWritten};
ghost use Rattle.rv_machine.specs.Width.{bytes_of};

use crate::width::Width;
use elf_file::Loaded;
use rv_isa::Permission;
use std::alloc::{AllocError, Global};

/// A memory of 2^64 addresses, of which few are mapped: a byte and a permission for each.
///
/// `byte_at` and `permission_at` say what it holds. A byte that is `is_ready` can be set; `ready` makes bytes ready, and may ask for memory to do so.
/// Whether it can be refused, `refuses` says. An address is mapped where its permission allows anything.
///
/// [`Ram::load`] and [`Ram::store`] are short cuts over a whole number: a memory answers them where it can do so at once. What they decline is done
/// byte by byte.
pub trait Ram: Drop {
    /// The byte at an address.
    ghost byte_at: { Self → ℕ → ℕ };

    /// What is allowed at an address.
    ghost permission_at: { Self → ℕ → Permission };

    /// Whether the byte at an address can be set.
    ghost is_ready: { Self → ℕ → Bool };

    /// Whether `ready` can be refused for want of memory.
    ghost refuses: { Bool };

    /// The memory at the start of a program: the segments of its file with their bytes and permissions, and the stack and `arguments` bytes from its
    /// top upward, which can be read and written and are 0. Nothing else is mapped.
    ///
    /// `arguments` is at most [`ARGUMENT_BYTES`](rv_isa::abi::ARGUMENT_BYTES). Fails only for want of memory.
    fn of(alloc: Global, file: &Loaded, arguments: u64) -> Result<Self, AllocError>
        requires { arguments ≤ ARGUMENT_BYTES }
        ensures permissions { IfOk result (λ r. permission_at r ≡ permission_in file.now arguments) }
        ensures bytes { IfOk result (λ r. byte_at r ≡ start_byte file.now) };

    /// What is allowed at an address.
    fn permission(&self, at: u64) -> Permission
        ensures { result ≡ permission_at self.now at };

    /// The byte at a mapped address.
    fn get(&self, at: u64) -> u8
        requires { is_mapped (permission_at self.now at) ≡ true }
        ensures { result ≡ byte_at self.now at };

    /// Makes `n` mapped bytes from an address upward ready to be set, and changes nothing else. Refused only for want of memory, and only where
    /// the memory `refuses`.
    fn ready(&mut self, at: u64, n: u64) -> Result<(), AllocError>
        requires inside { at + n ≤ 2 ^ 64 }
        requires mapped { each_of (λ a. is_mapped (permission_at self.old a)) at n ≡ true }
        ensures ready { OnOk result (each_of (is_ready self.new) at n ≡ true) }
        ensures refused { OnErr result (refuses ≡ true) }
        ensures bytes { byte_at self.new ≡ byte_at self.old }
        ensures permissions { permission_at self.new ≡ permission_at self.old };

    /// Sets a mapped byte that is ready, and changes nothing else.
    fn set(&mut self, at: u64, byte: u8)
        requires mapped { is_mapped (permission_at self.old at) ≡ true }
        requires ready { is_ready self.old at ≡ true }
        ensures bytes { byte_at self.new ≡ updated (byte_at self.old) at byte }
        ensures permissions { permission_at self.new ≡ permission_at self.old }
        ensures stays_ready { is_ready self.new ≡ is_ready self.old };

    /// The number at an address, lowest byte first, where all its bytes may be read and the memory can read it at once. Promises no answer.
    fn load(&self, at: u64, width: Width) -> Option<u64>
        ensures { IfSome result (IsRead (permission_at self.now) (byte_at self.now) at (bytes_of width)) }
    {
        let _ = at;
        let _ = width;
        None
    }

    /// Writes the low bytes of `value` at an address, lowest byte first, where all of them may be written and the memory can do so at once, and says
    /// whether it did. Where it did not nothing changed. Promises no answer.
    fn store(&mut self, at: u64, width: Width, value: u64) -> bool
        ensures done { OnTrue result (IsWritten (permission_at self.old) (byte_at self.old) (byte_at self.new) at (bytes_of width) value) }
        ensures declined { OnFalse result (byte_at self.new ≡ byte_at self.old) }
        ensures permissions { permission_at self.new ≡ permission_at self.old }
    {
        let _ = at;
        let _ = width;
        let _ = value;
        false
    }
}
