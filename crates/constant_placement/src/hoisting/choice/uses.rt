//! What it would save to hold constants in registers.
use crate::hoisting::choice::regions::Regions;
use crate::hoisting::choice::saving::{where_branching, where_copied, where_operating, where_read};
use crate::hoisting::plan::Constant;
use flow::depths::frequency;
use il_ast::Symbol;
use std::alloc::{AllocError, Global};
use vcode::{Argument, Block, Jump, Line, Operand};

/// A constant, by what orders it.
#[derive(Clone, Copy, PartialEq, Eq, PartialOrd, Ord)]
pub(crate) struct Key {
    is_name: bool,
    number: u64,
}

impl Key {
    /// No number 0, which x0 has.
    fn of(operand: &Operand<u32>) -> Option<Key> {
        match operand {
            Operand::At(_) | Operand::Number(0) => None,
            Operand::Number(number) => Some(Key {
                is_name: false,
                number: *number,
            }),
            Operand::Name(name) => Some(Key {
                is_name: true,
                number: name.number() as u64,
            }),
        }
    }

    /// The constant.
    pub(crate) fn constant(self) -> Constant {
        if self.is_name {
            Constant::Name(Symbol::at(self.number as usize))
        } else {
            Constant::Number(self.number)
        }
    }
}

/// What it would save to hold a constant in a region, at one operand or at all of them.
#[derive(Clone, Copy, PartialEq, Eq, PartialOrd, Ord)]
pub(crate) struct Use {
    pub(crate) key: Key,
    pub(crate) region: usize,
    pub(crate) gain: i64,
}

#[derive(Drop)]
struct Uses {
    list: Vec<Use>,
    region: usize,
    /// how often the block is run
    times: i64,
}

impl Uses {
    fn push(&mut self, operand: &Operand<u32>, saved: i64) -> Result<(), AllocError> {
        if let Some(key) = Key::of(operand)
            && saved != 0
        {
            self.list.push(Use {
                key,
                region: self.region,
                gain: saved.saturating_mul(self.times),
            })?;
        }
        Ok(())
    }

    fn push_two(
        &mut self,
        left: &Operand<u32>,
        right: &Operand<u32>,
        saved: (i64, i64),
    ) -> Result<(), AllocError> {
        self.push(left, saved.0)?;
        self.push(right, saved.1)
    }

    fn push_arguments(&mut self, args: &[Argument<u32>]) -> Result<(), AllocError> {
        for arg in args {
            self.push(&arg.value, where_copied(&arg.value))?;
        }
        Ok(())
    }

    fn push_line(&mut self, line: &Line<u32>) -> Result<(), AllocError> {
        match line {
            Line::Tick { .. } | Line::Alloc { .. } => Ok(()),
            Line::Set { value, .. } => self.push(value, where_copied(value)),
            Line::Operate {
                operation,
                left,
                right,
                ..
            } => self.push_two(left, right, where_operating(*operation, left, right)),
            Line::Load { at, .. } => self.push(&at.base, where_read(&at.base)),
            Line::Store { value, at, .. } => {
                self.push_two(value, &at.base, (where_read(value), where_read(&at.base)))
            }
            Line::Blit { from, to, .. } => {
                self.push_two(from, to, (where_read(from), where_read(to)))
            }
            // a call of a name that it reaches is one instruction
            Line::Call { args, .. } => self.push_arguments(args.as_slice()),
        }
    }

    fn push_jump(&mut self, jump: &Jump<u32>) -> Result<(), AllocError> {
        match jump {
            Jump::Branch { on, .. } => self.push_two(&on.left, &on.right, where_branching(on)),
            Jump::Return(Some(returned)) => {
                self.push(&returned.value, where_copied(&returned.value))
            }
            Jump::Goto(_) | Jump::Return(None) | Jump::Halt => Ok(()),
        }
    }

    fn push_block(&mut self, block: &Block<u32>) -> Result<(), AllocError> {
        for line in block.lines.as_slice() {
            self.push_line(line)?;
        }
        self.push_jump(&block.jump)
    }
}

/// All operands of one constant in one region as one. They stand in order.
fn merged(alloc: Global, uses: &[Use]) -> Result<Vec<Use>, AllocError> {
    let mut all: Vec<Use> = Vec::new(alloc);
    for one in uses {
        match all.last_mut() {
            Some(last) if last.key == one.key && last.region == one.region => {
                last.gain = last.gain.saturating_add(one.gain);
            }
            _ => all.push(*one)?,
        }
    }
    Ok(all)
}

/// What it would save to hold each constant in each region, in the order of constants.
pub(crate) fn uses_of(
    alloc: Global,
    blocks: &[Block<u32>],
    depths: &[u32],
    regions: &Regions,
) -> Result<Vec<Use>, AllocError> {
    let mut uses = Uses {
        list: Vec::new(alloc),
        region: 0,
        times: 0,
    };
    for (number, block) in blocks.iter().enumerate() {
        uses.region = regions.number(number);
        uses.times = frequency(depths.get(number).copied().unwrap_or(0)) as i64;
        if uses.region != 0 {
            uses.push_block(block)?;
        }
    }
    uses.list.sort()?;
    merged(alloc, uses.list.as_slice())
}

/// Whether a register that holds a constant would save an instruction anywhere.
pub(crate) fn may_save(alloc: Global, blocks: &[Block<u32>]) -> Result<bool, AllocError> {
    let mut uses = Uses {
        list: Vec::new(alloc),
        region: 0,
        times: 1,
    };
    for block in blocks {
        uses.push_block(block)?;
    }
    Ok(uses.list.iter().any(|one| 0 < one.gain))
}
