//! Sets of live registers, one for each point.
ghost use Rattle.std.specs.Prelude.{◌≡◌};
ghost use Rattle.bitset.specs.Bits.{is_member};
ghost use Rattle.cfg_live.specs.Rows.{holds};

use bitset::BitSet;
use std::marker::Model;

/// The live registers of a function's points. Contracts see a list of sets, one for each point.
#[derive(Drop)]
pub struct Live {
    pub(crate) rows: Vec<BitSet>,
}

impl Model for Live {
    ghost use Rattle.std.specs.Prelude.{List};
    ghost use Rattle.bitset.specs.Bits.{Bits};

    ghost Value = { List Bits };

    ghost view = { λ l. l.rows.items };
}

impl Live {
    /// Whether a register is live right before a point. False where there is no such point or register.
    pub fn holds(&self, point: usize, register: u32) -> bool
        ensures { result ≡ holds self.now point register }
    {
        match self.rows.get(point) {
            Some(row) => has(row, register as usize),
            None => false,
        }
    }
}

fn has(row: &BitSet, register: usize) -> bool
    ensures { result ≡ is_member row.now register }
{
    register < row.len() && row.contains(register)
}
