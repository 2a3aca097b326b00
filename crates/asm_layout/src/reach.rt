//! How far jumps go.

ghost use Rattle.std.specs.Prelude.{◌≡◌};
ghost use Rattle.asm_layout.specs.Forms.{reach_of};

/// What reaches from one place to another.
#[derive(Clone, Copy)]
pub enum Reach {
    /// a branch
    Short,
    /// `jal`
    Middle,
    /// `auipc` and `jalr`
    Far,
}

/// The most that a branch goes ahead and back, in words, by the B-type format.
const BRANCH_AHEAD: usize = 1023;

const BRANCH_BACK: usize = 1024;

/// The most that `jal` goes either way, in words, from the place of a branch or the word after it, by the J-type format.
const JUMP: usize = 262_143;

/// What reaches from the word `here` to the word `there`.
pub fn reach_of(here: usize, there: usize) -> Reach
    ensures { result ≡ reach_of here there }
{
    let ahead = there.saturating_sub(here);
    let back = here.saturating_sub(there);
    if ahead <= BRANCH_AHEAD && back <= BRANCH_BACK {
        Reach::Short
    } else if ahead <= JUMP && back <= JUMP {
        Reach::Middle
    } else {
        Reach::Far
    }
}
