//! A memory whose last page of the stack is refused.

use elf_file::Loaded;
use rv_isa::Permission;
use rv_machine::Ram;
use std::alloc::{AllocError, Global};

/// A memory that can't be made ready from 0x0ffff000 to the stack's end.
#[derive(Drop)]
pub struct Refusing<R: Ram> {
    pub inner: R,
}

impl<R: Ram> Ram for Refusing<R> {
    ghost use Rattle.std.specs.Prelude.{true};

    ghost byte_at = { λ s. R.byte_at s.inner };

    ghost permission_at = { λ s. R.permission_at s.inner };

    ghost is_ready = { λ s. R.is_ready s.inner };

    ghost refuses = { true };

    fn of(alloc: Global, file: &Loaded, arguments: u64) -> Result<Self, AllocError> {
        let inner = R::of(alloc, file, arguments)?;
        Ok(Refusing { inner })
    }

    fn permission(&self, at: u64) -> Permission {
        self.inner.permission(at)
    }

    fn get(&self, at: u64) -> u8 {
        self.inner.get(at)
    }

    fn ready(&mut self, at: u64, n: u64) -> Result<(), AllocError> {
        for k in 0..n {
            if at + k >= 0x0fff_f000 && at + k < 0x1000_0000 {
                return Err(AllocError);
            }
        }
        self.inner.ready(at, n)?;
        Ok(())
    }

    fn set(&mut self, at: u64, byte: u8) {
        self.inner.set(at, byte)
    }
}
