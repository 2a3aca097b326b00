//! Whether a plan is right for a function.
ghost use Rattle.std.specs.Prelude.{◌≡◌, ℕ, ◌&&◌, ◌||◌, nat_lt};
ghost use Rattle.std.specs.List.{list_all};
ghost use Rattle.vcode.specs.declared.place.Argument.{Argument as AnArgument};
ghost use Rattle.vcode.specs.declared.place.Destination.{Destination as ADestination};
ghost use Rattle.vcode.specs.Prelude.{is_paid, operand_keeps, wanted_keeps, made_keeps, line_keeps, jump_keeps, block_keeps, keeps_places};
ghost use Rattle.flow.specs.Successors.{successors};
ghost use Rattle.constant_placement.specs.Held.{is_held, is_set, is_other, may_lead, leads_well, is_safe};

use crate::hoisting::plan::Plan;
use vcode::cost::is_paid;
use vcode::{Argument, Block, Code, Destination, Jump, Line, Operand, VFunc};

/// The lines of code that spare a register name it nowhere.
fn operand_spares(register: u32, operand: &Operand<u32>) -> bool
    ensures { result ≡ operand_keeps (is_other register) operand.now }
{
    match operand {
        Operand::At(other) => *other != register,
        Operand::Number(_) | Operand::Name(_) => true,
    }
}

fn wanted_spares(register: u32, to: &Option<Destination<u32>>) -> bool
    ensures { result ≡ wanted_keeps (is_other register) to.now }
{
    match to {
        Some(to) => to.place != register,
        None => true,
    }
}

fn made_spares(register: u32, to: &Option<u32>) -> bool
    ensures { result ≡ made_keeps (is_other register) to.now }
{
    match to {
        Some(to) => *to != register,
        None => true,
    }
}

fn args_spare(register: u32, args: &[Argument<u32>]) -> bool
    ensures { result ≡ list_all (λ (a : AnArgument ℕ). operand_keeps (is_other register) a.value) args.now }
{
    args.iter().all(|arg| operand_spares(register, &arg.value))
}

fn line_spares(register: u32, line: &Line<u32>) -> bool
    ensures { result ≡ line_keeps (is_other register) line.now }
{
    match line {
        Line::Tick { .. } => true,
        Line::Set { to, value } => *to != register && operand_spares(register, value),
        Line::Operate {
            to,
            left,
            right,
            ..
        } => {
            *to != register && (operand_spares(register, left) && operand_spares(register, right))
        }
        Line::Load { to, at, .. } => *to != register && operand_spares(register, &at.base),
        Line::Store { value, at, .. } => {
            operand_spares(register, value) && operand_spares(register, &at.base)
        }
        Line::Alloc { to, .. } => made_spares(register, to),
        Line::Blit { from, to, .. } => {
            operand_spares(register, from) && operand_spares(register, to)
        }
        Line::Call { to, callee, args } => {
            wanted_spares(register, to)
                && (operand_spares(register, callee) && args_spare(register, args.as_slice()))
        }
    }
}

fn jump_spares(register: u32, jump: &Jump<u32>) -> bool
    ensures { result ≡ jump_keeps (is_other register) jump.now }
{
    match jump {
        Jump::Goto(_) => true,
        Jump::Branch { on, .. } => {
            operand_spares(register, &on.left) && operand_spares(register, &on.right)
        }
        Jump::Return(None) => true,
        Jump::Return(Some(returned)) => operand_spares(register, &returned.value),
        Jump::Halt => true,
    }
}

fn lines_spare(register: u32, lines: &[Line<u32>]) -> bool
    ensures { result ≡ list_all (line_keeps (is_other register)) lines.now }
{
    lines.iter().all(|line| line_spares(register, line))
}

fn blocks_spare(register: u32, blocks: &[Block<u32>]) -> bool
    ensures { result ≡ list_all (block_keeps (is_other register)) blocks.now }
{
    blocks.iter().all(|block| {
        lines_spare(register, block.lines.as_slice()) && jump_spares(register, &block.jump)
    })
}

fn params_spare(register: u32, params: &[Destination<u32>]) -> bool
    ensures { result ≡ list_all (λ (d : ADestination ℕ). is_other register d.place) params.now }
{
    params.iter().all(|param| param.place != register)
}

fn may_lead(plan: &Plan, has: bool, to: usize) -> bool
    ensures { result ≡ may_lead plan.now has to }
{
    has || !plan.is_held(to)
}

fn jump_leads_well(plan: &Plan, has: bool, jump: &Jump<u32>) -> bool
    ensures { result ≡ list_all (may_lead plan.now has) (successors jump.now) }
{
    match jump {
        Jump::Goto(to) => may_lead(plan, has, *to),
        Jump::Branch { met, otherwise, .. } => {
            may_lead(plan, has, *met) && may_lead(plan, has, *otherwise)
        }
        Jump::Return(_) | Jump::Halt => true,
    }
}

fn leads_well(plan: &Plan, blocks: &[Block<u32>]) -> bool
    ensures { result ≡ leads_well plan.now 0 blocks.now }
{
    for (number, block) in blocks.iter().enumerate() {
        let has = plan.is_held(number) || plan.is_set(number);
        if !jump_leads_well(plan, has, &block.jump) {
            return false;
        }
    }
    true
}

fn is_safe(plan: &Plan, code: &Code<u32>) -> bool
    ensures { result ≡ is_safe plan.now code.now }
{
    (params_spare(plan.register, code.params.as_slice())
        && blocks_spare(plan.register, code.blocks.as_slice()))
        && (!plan.is_held(0) && leads_well(plan, code.blocks.as_slice()))
}

/// Whether the plan is right for the function but for what its lines then cost.
pub(crate) fn fits(plan: &Plan, function: &VFunc) -> bool
    ensures { result ≡ (nat_lt plan.now.register function.now.registers && is_safe plan.now function.now.code) }
{
    plan.register < function.registers && is_safe(plan, &function.code)
}

/// Whether the ticks of each block pay for its lines and its jump.
pub(crate) fn are_paid(blocks: &[Block<u32>]) -> bool
    ensures { result ≡ list_all is_paid blocks.now }
{
    blocks.iter().all(|block| is_paid(block))
}
