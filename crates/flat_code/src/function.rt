//! Functions whose code is read on bytes.
ghost use Rattle.std.specs.Prelude.{◌≡◌};
ghost use Rattle.flat_code.specs.Laws.{FlatKept};

use vcode::LFunc;

/// A function in location code, read on bytes: its blocks of memory stand in an area of the stack, and its pointers are addresses. The lines are the same.
#[derive(Drop)]
pub struct FlatFunc {
    pub located: LFunc,
}

/// Takes a function over, to be read on bytes. Nothing is copied and no memory is taken, so there is no error. The code on bytes keeps the code on blocks.
pub fn flat(function: LFunc) -> FlatFunc
    ensures same { result.located ≡ function }
    ensures keeps { FlatKept result.located.code }
{
    FlatFunc { located: function }
}
