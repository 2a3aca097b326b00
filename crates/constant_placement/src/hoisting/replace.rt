//! Blocks that hold a constant.
ghost use Rattle.std.specs.Prelude.{◌≡◌, ◌++◌, map, OnOk, IfOk};
ghost use Rattle.vcode.specs.Prelude.{with_line};
ghost use Rattle.constant_placement.specs.Held.{replaced, setting, held_block, with_blocks};

use crate::hoisting::plan::Plan;
use il_ast::Seq;
use std::alloc::{AllocError, Global};
use vcode::replace::{jump, line};
use vcode::{Block, Line, Operand, Replace};

/// A block that holds the constant, or doesn't.
#[derive(Drop)]
struct Held<'a> {
    plan: &'a Plan,
    held: bool,
}

impl Replace for Held<'_> {
    ghost replacing = { λ h. replaced h.plan.now h.held };

    fn operand(&self, from: &Operand<u32>) -> Operand<u32> {
        if self.held && self.plan.constant.is_it(from) {
            Operand::At(self.plan.register)
        } else {
            *from
        }
    }
}

fn push_lines(
    alloc: Global,
    by: &Held<'_>,
    made: &mut Seq<Line<u32>>,
    lines: &[Line<u32>],
) -> Result<(), AllocError>
    ensures { OnOk result (made.new ≡ made.old ++ map (with_line (replaced by.now.plan.now by.now.held)) lines.now) }
{
    for item in lines {
        made.push(line(alloc, by, item)?)?;
    }
    Ok(())
}

fn push_setting(plan: &Plan, set: bool, made: &mut Seq<Line<u32>>) -> Result<(), AllocError>
    ensures { OnOk result (made.new ≡ made.old ++ setting plan.now set) }
{
    if set {
        made.push(Line::Set {
            to: plan.register,
            value: plan.constant.operand(),
        })?;
    }
    Ok(())
}

fn held_block(
    alloc: Global,
    plan: &Plan,
    held: bool,
    set: bool,
    block: &Block<u32>,
) -> Result<Block<u32>, AllocError>
    ensures { IfOk result (λ v. v ≡ held_block plan.now held set block.now) }
{
    let by = Held { plan, held };
    let mut lines = Seq::new(alloc);
    push_lines(alloc, &by, &mut lines, block.lines.as_slice())?;
    push_setting(plan, set, &mut lines)?;
    Ok(Block {
        lines,
        jump: jump(&by, &block.jump),
    })
}

/// The blocks by a plan: where it holds, its constant is read from its register, and where it sets, that is set right before the jump.
pub(crate) fn with_blocks(
    alloc: Global,
    plan: &Plan,
    blocks: &[Block<u32>],
) -> Result<Vec<Block<u32>>, AllocError>
    ensures { IfOk result (λ v. v.items ≡ with_blocks plan.now 0 blocks.now) }
{
    let mut made = Vec::new(alloc);
    for (number, block) in blocks.iter().enumerate() {
        let held = plan.is_held(number);
        let set = plan.is_set(number);
        made.push(held_block(alloc, plan, held, set, block)?)?;
    }
    Ok(made)
}
