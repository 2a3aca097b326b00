//! Fills memory with bytes.

ghost use Rattle.std.specs.Prelude.{◌≡◌, ℕ, ◌+◌, ◌≤◌, ◌^◌, true, length};
ghost use Rattle.rv_isa.specs.Prelude.{each_of};
ghost use Rattle.rv_machine.specs.Mapped.{is_mapped};
ghost use Rattle.rv_machine.specs.Steps.{filled};

use crate::ram::Ram;

/// Sets mapped bytes that are ready, from an address upward, to these.
pub(crate) fn set_all<R: Ram>(ram: &mut R, at: u64, bytes: &[u8])
    requires inside { at + length bytes.now ≤ 2 ^ 64 }
    requires mapped { each_of (λ a. is_mapped (R.permission_at ram.old a)) at (length bytes.now) ≡ true }
    requires ready { each_of (R.is_ready ram.old) at (length bytes.now) ≡ true }
    ensures bytes { R.byte_at ram.new ≡ filled (R.byte_at ram.old) at bytes.now }
    ensures permissions { R.permission_at ram.new ≡ R.permission_at ram.old }
{
    for (k, byte) in bytes.iter().enumerate() {
        ram.set(at + k as u64, *byte);
    }
}
