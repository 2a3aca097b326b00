//! What the lines of a function do: which values they read, and which temporaries they assign.
use crate::note::Gathered;
use il_ast::{Class, Dest, Func, Inst, Jump, Label, Lined, Phi, Temp, Val};
use il_types::classes::{left_class, operand_class, right_class, stored_class};
use std::alloc::{AllocError, Global};

/// What a line does in a place of a class. The block is that with this number, and for parameters the first one.
#[derive(Clone, Copy)]
pub struct Step {
    pub block: usize,
    pub line: usize,
    pub class: Class,
    pub does: Does,
}

/// What is done with a value or a temporary.
#[derive(Clone, Copy)]
pub enum Does {
    /// The value is read.
    Reads(Val),
    /// The value is read where the block is entered from that of the label.
    Takes(Label, Val),
    /// The value is returned.
    Returns(Val),
    /// The temporary is assigned.
    Assigns(Temp),
}

impl Step {
    /// The value that is read, but for one that is returned.
    pub fn read_within(&self) -> Option<Val> {
        match self.does {
            Does::Reads(value) | Does::Takes(_, value) => Some(value),
            Does::Returns(_) | Does::Assigns(_) => None,
        }
    }

    /// The value that is read, or returned.
    pub fn read(&self) -> Option<Val> {
        match self.does {
            Does::Reads(value) | Does::Takes(_, value) | Does::Returns(value) => Some(value),
            Does::Assigns(_) => None,
        }
    }

    /// The temporary that is read, or returned.
    pub fn temp_read(&self) -> Option<Temp> {
        match self.read()? {
            Val::Temp(temp) => Some(temp),
            Val::Int(_) | Val::Global(_) => None,
        }
    }

    pub fn assigns(&self, temp: Temp) -> bool {
        matches!(self.does, Does::Assigns(assigned) if assigned == temp)
    }
}

/// Steps in the order of the text.
#[derive(Drop)]
pub struct StepList {
    list: Gathered<Step>,
    block: usize,
}

impl StepList {
    /// No step yet.
    pub fn new(alloc: Global) -> StepList {
        StepList {
            list: Gathered::new(alloc),
            block: 0,
        }
    }

    fn add(&mut self, line: usize, class: Class, does: Does) {
        let block = self.block;
        self.list.add(Ok(Step {
            block,
            line,
            class,
            does,
        }));
    }

    /// Adds what a phi does.
    pub fn add_phi(&mut self, phi: &Phi) {
        for arg in phi.args.as_slice() {
            self.add(phi.line, phi.to.class, Does::Takes(arg.from, arg.value));
        }
        self.add(phi.line, phi.to.class, Does::Assigns(phi.to.temp));
    }

    /// Adds what an instruction does: it reads its operands in order, and assigns.
    pub fn add_inst(&mut self, inst: &Lined<Inst>) {
        let line = inst.line;
        match &inst.item {
            Inst::Unary { to, op, value } => {
                self.add(line, operand_class(*op, to.class), Does::Reads(*value))
            }
            Inst::Binary {
                to,
                op,
                left,
                right,
            } => {
                self.add(line, left_class(*op, to.class), Does::Reads(*left));
                self.add(line, right_class(*op, to.class), Does::Reads(*right));
            }
            Inst::Alloc { .. } => {}
            Inst::Store { size, value, at } => {
                self.add(line, stored_class(*size), Does::Reads(*value));
                self.add(line, Class::L, Does::Reads(*at));
            }
            Inst::Blit { from, to, count: _ } => {
                self.add(line, Class::L, Does::Reads(*from));
                self.add(line, Class::L, Does::Reads(*to));
            }
            Inst::Call { callee, args, .. } => {
                self.add(line, Class::L, Does::Reads(*callee));
                for arg in args.as_slice() {
                    self.add(line, arg.class, Does::Reads(arg.value));
                }
            }
        }
        if let Some(to) = destination(&inst.item) {
            self.add(line, to.class, Does::Assigns(to.temp));
        }
    }

    /// Adds what a jump decides on or returns. Nothing is asked of the class of what is returned.
    pub fn add_jump(&mut self, jump: &Lined<Jump>) {
        match jump.item {
            Jump::Branch { on, .. } => self.add(jump.line, Class::W, Does::Reads(on)),
            Jump::Return(Some(value)) => self.add(jump.line, Class::L, Does::Returns(value)),
            Jump::Goto(_) | Jump::Return(None) | Jump::Halt => {}
        }
    }

    /// The steps, where memory was given for all of them.
    pub fn finish(self) -> Result<Vec<Step>, AllocError> {
        self.list.finish()
    }
}

/// All that a function does: its parameters are assigned, and then block by block.
pub fn steps(alloc: Global, function: &Func) -> Result<Vec<Step>, AllocError> {
    let mut steps = StepList::new(alloc);
    for param in function.params.as_slice() {
        steps.add(param.line, param.class, Does::Assigns(param.temp));
    }
    for (number, block) in function.blocks.as_slice().iter().enumerate() {
        steps.block = number;
        for phi in block.phis.as_slice() {
            steps.add_phi(phi);
        }
        for inst in block.insts.as_slice() {
            steps.add_inst(inst);
        }
        if let Some(jump) = &block.jump {
            steps.add_jump(jump);
        }
    }
    steps.finish()
}

/// Where the result of an instruction goes.
pub fn destination(inst: &Inst) -> Option<Dest> {
    match inst {
        Inst::Unary { to, .. } | Inst::Binary { to, .. } | Inst::Alloc { to, .. } => Some(*to),
        Inst::Call { to, .. } => *to,
        Inst::Store { .. } | Inst::Blit { .. } => None,
    }
}

/// The class of a temporary, where it is assigned.
pub fn class_of(steps: &[Step], temp: Temp) -> Option<Class> {
    Some(steps.iter().find(|step| step.assigns(temp))?.class)
}
