//! What registers hold along blocks, as far as claims are made of it: for a guess, of which nothing is proved.
use crate::constants::claim::Claim;
use crate::constants::replace::is_short;
use cfg_live::uses::line_writes;
use std::alloc::{AllocError, Global};
use std::mem;
use vcode::{Block, Jump, Line, Operand, VFunc};

/// How many claims a block has at most.
const CLAIMS: usize = 128;

/// What is known of a register.
#[derive(Clone, Copy)]
struct Register {
    /// what it holds since it was last written, if that is known
    value: Option<Operand<u32>>,
    /// when it was last written
    written: u64,
    /// when it was last claimed
    claimed: u64,
    /// how often it is written in the function, 2 for more
    writes: u8,
    /// to which block the first goes that sets it, and what it holds there, if that is known
    set: Option<(usize, Option<Operand<u32>>)>,
    /// whether another block that goes there leaves something else in it
    differs: bool,
}

/// A register that no line writes.
const UNWRITTEN: Register = Register {
    value: None,
    written: 0,
    claimed: 0,
    writes: 0,
    set: None,
    differs: false,
};

/// A walk along blocks. Times are counted in writes.
#[derive(Drop)]
pub(crate) struct Walk {
    registers: Vec<Register>,
    /// registers of which something was known in this block
    found: Vec<u32>,
    clock: u64,
    begun: u64,
}

fn names(operand: &Operand<u32>, register: u32) -> bool {
    match operand {
        Operand::At(place) => *place == register,
        _ => false,
    }
}

/// One more write of the register, of which 2 are told from more no longer.
fn count_write(registers: &mut [Register], register: u32) {
    if let Some(register) = registers.get_mut(register as usize) {
        register.writes = if register.writes == 0 { 1 } else { 2 };
    }
}

fn count_writes(registers: &mut [Register], lines: &[Line<u32>]) {
    for line in lines {
        if let Some(register) = line_writes(line) {
            count_write(registers, register);
        }
    }
}

/// The registers, with how often each is written, a parameter at the begin too.
fn registers_of(alloc: Global, function: &VFunc) -> Result<Vec<Register>, AllocError> {
    let mut registers = vec![in alloc; UNWRITTEN; function.registers as usize]?;
    for param in function.code.params.as_slice() {
        count_write(registers.as_mut_slice(), param.place);
    }
    for block in function.code.blocks.as_slice() {
        count_writes(registers.as_mut_slice(), block.lines.as_slice());
    }
    Ok(registers)
}

fn same(one: &Operand<u32>, other: &Operand<u32>) -> bool {
    match (*one, *other) {
        (Operand::At(register), Operand::At(place)) => register == place,
        (Operand::Number(number), Operand::Number(value)) => number == value,
        _ => false,
    }
}

impl Walk {
    pub(crate) fn new(alloc: Global, function: &VFunc) -> Result<Walk, AllocError> {
        let registers = registers_of(alloc, function)?;
        Ok(Walk {
            registers,
            found: Vec::new(alloc),
            clock: 0,
            begun: 0,
        })
    }

    /// Whether it is worth a claim that the register holds that: a number, or what another register does if no other line writes the register. The copy of a register
    /// that is written at two places mostly stays, and keeps both alive.
    fn is_worth(&self, register: u32, value: &Operand<u32>) -> bool {
        match value {
            Operand::Number(_) => true,
            Operand::At(_) => match self.registers.get(register as usize) {
                Some(register) => register.writes == 1,
                None => false,
            },
            Operand::Name(_) => false,
        }
    }

    /// Whether the operand wasn't written since.
    fn stands(&self, value: &Operand<u32>, since: u64) -> bool {
        match value {
            Operand::At(register) => match self.registers.get(*register as usize) {
                Some(register) => register.written <= since,
                None => false,
            },
            _ => true,
        }
    }

    /// What the register holds.
    fn value(&self, register: u32) -> Option<Operand<u32>> {
        match self.registers.get(register as usize) {
            Some(
                Register {
                    value: Some(value),
                    written,
                    ..
                },
            ) if self.begun < *written && self.stands(value, *written) => Some(*value),
            _ => None,
        }
    }

    /// What an operand becomes by what is known.
    fn carried(&self, operand: Operand<u32>) -> Operand<u32> {
        match operand {
            Operand::At(register) => match self.value(register) {
                Some(value) => { if is_short(&value) { value } else { operand } }
                None => operand,
            },
            _ => operand,
        }
    }

    /// The register is written, and holds that then.
    fn write(&mut self, register: u32, value: Option<Operand<u32>>) {
        self.clock = self.clock.saturating_add(1);
        let since = self.clock;
        if let Some(written) = self.registers.get_mut(register as usize) {
            written.written = since;
            written.value = match value {
                Some(value) if !names(&value, register) => Some(value),
                _ => None,
            };
        }
    }

    fn find(&mut self, register: u32, value: Operand<u32>) -> Result<(), AllocError> {
        let is_worth = self.is_worth(register, &value);
        self.write(register, Some(value));
        if is_worth {
            self.found.push(register)?;
        }
        Ok(())
    }

    /// A block begins, of which that is claimed.
    pub(crate) fn begin(&mut self, claims: &[Claim]) -> Result<(), AllocError> {
        self.begun = self.clock;
        self.found.clear();
        for claim in claims {
            self.find(claim.register, claim.value)?;
        }
        Ok(())
    }

    /// A line is done.
    fn pass(&mut self, line: &Line<u32>) -> Result<(), AllocError> {
        match line {
            Line::Set { to, value } => {
                let value = self.carried(*value);
                self.find(*to, value)
            }
            _ => {
                if let Some(register) = line_writes(line) {
                    self.write(register, None);
                }
                Ok(())
            }
        }
    }

    /// Lines are done.
    pub(crate) fn go(&mut self, lines: &[Line<u32>]) -> Result<(), AllocError> {
        for line in lines {
            self.pass(line)?;
        }
        Ok(())
    }

    /// Notes to which block a register comes from one that sets it, and with which value. Says whether all blocks that set it so far go there.
    fn note_way(&mut self, register: u32, to: usize) -> bool {
        let value = self.value(register);
        let Some(register) = self.registers.get_mut(register as usize) else {
            return false;
        };
        let Some((block, first)) = register.set else {
            register.set = Some((to, value));
            return true;
        };
        register.differs |= !match (first, value) {
            (Some(first), Some(value)) => same(&first, &value),
            _ => false,
        };
        block == to
    }

    /// Notes where the registers come that a block sets, behind its lines. Says whether all blocks that set one go to the same block.
    pub(crate) fn note_ways(&mut self, block: &Block<u32>) -> bool {
        let next = match block.jump {
            Jump::Goto(next) => next,
            Jump::Branch { .. } => return self.found.is_empty(),
            Jump::Return(_) | Jump::Halt => return true,
        };
        for line in block.lines.as_slice() {
            if let Line::Set { to, .. } = line
                && !self.note_way(*to, next)
            {
                return false;
            }
        }
        true
    }

    /// Whether no register comes to a block with one value by all ways.
    pub(crate) fn all_differ(&self) -> bool {
        self.registers
            .iter()
            .all(|register| register.differs || register.set.is_none())
    }

    /// Whether what is claimed is known.
    pub(crate) fn knows(&self, claim: &Claim) -> bool {
        match self.value(claim.register) {
            Some(value) => same(&value, &claim.value),
            None => false,
        }
    }

    /// Whether the register is claimed for the first time at this time.
    fn is_new(&mut self, register: u32) -> bool {
        let now = self.clock;
        match self.registers.get_mut(register as usize) {
            Some(register) => {
                let is_new = register.claimed < now;
                register.claimed = now;
                is_new
            }
            None => false,
        }
    }

    /// What is known, as claims.
    pub(crate) fn known(&mut self, alloc: Global) -> Result<Vec<Claim>, AllocError> {
        let mut claims = Vec::with_capacity(alloc, self.found.len().min(CLAIMS))?;
        let found = mem::replace(&mut self.found, Vec::new(alloc));
        self.clock = self.clock.saturating_add(1);
        for register in found.as_slice() {
            if let Some(value) = self.value(*register) {
                if claims.len() < CLAIMS
                    && self.is_worth(*register, &value)
                    && self.is_new(*register)
                {
                    claims.push(Claim {
                        register: *register,
                        value,
                    })?;
                }
            }
        }
        self.found = found;
        Ok(claims)
    }
}
