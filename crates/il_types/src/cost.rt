//! What a function weighs, and how much stack it needs.
//!
//! Each measure takes no memory and goes over the function once. A number that would pass 64 bits
//! stays at the largest one; within the limits of a text none does.
ghost use Rattle.std.specs.Prelude.{◌≡◌, ◌+◌, ◌<◌, ◌^◌, max, sum_by};
ghost use Rattle.il_ast.specs.Prelude.{weight, need, inst_weight, block_weight, alloc_bytes, alloc_area, phi_count, args_on_stack, largest_in, largest_of, round_16, call_weight, blit_weight};
ghost use Rattle.il_types.specs.Prelude.{capped, phis_weight, insts_weight, insts_alloc};

use il_ast::{Block, Func, Inst, Lined, Phi};

/// The weight of a function: 1 for each block, instruction, jump, parameter, argument of a call and
/// argument of a phi, and 1 for each eight bytes of a `blit` begun.
pub fn weight(function: &Func) -> u64
    ensures { result ≡ capped (weight function.now) }
{
    let mut total = function.params.len() as u64;
    let blocks = function.blocks.as_slice();
    for block in blocks {
        total = total.saturating_add(block_weight(block));
    }
    total
}

fn block_weight(block: &Block) -> u64
    ensures { result ≡ capped (block_weight block.now) }
{
    let jump = if block.jump.is_some() { 2 } else { 1 };
    let phis = phis_weight(block.phis.as_slice());
    let insts = insts_weight(block.insts.as_slice());
    phis.saturating_add(jump).saturating_add(insts)
}

fn phis_weight(phis: &[Phi]) -> u64
    ensures { result ≡ capped (phis_weight phis.now) }
{
    let mut total: u64 = 0;
    for phi in phis {
        total = total.saturating_add(phi.args.len() as u64);
    }
    total
}

fn insts_weight(insts: &[Lined<Inst>]) -> u64
    ensures { result ≡ capped (insts_weight insts.now) }
{
    let mut total: u64 = 0;
    for inst in insts {
        total = total.saturating_add(inst_weight(&inst.item));
    }
    total
}

fn inst_weight(inst: &Inst) -> u64
    ensures { result ≡ capped (inst_weight inst.now) }
{
    match inst {
        Inst::Call { args, .. } => (args.len() as u64).saturating_add(1),
        Inst::Blit { count, .. } => count.div_ceil(8).saturating_add(1),
        _ => 1,
    }
}

/// The bytes of a function's `alloc`s, each rounded up to a multiple of 16.
pub fn alloc_area(function: &Func) -> u64
    ensures { result ≡ capped (alloc_area function.now) }
{
    let mut total: u64 = 0;
    let blocks = function.blocks.as_slice();
    for block in blocks {
        total = total.saturating_add(insts_alloc(block.insts.as_slice()));
    }
    total
}

fn insts_alloc(insts: &[Lined<Inst>]) -> u64
    ensures { result ≡ capped (insts_alloc insts.now) }
{
    let mut total: u64 = 0;
    for inst in insts {
        total = total.saturating_add(alloc_bytes(&inst.item));
    }
    total
}

fn alloc_bytes(inst: &Inst) -> u64
    ensures { result ≡ capped (alloc_bytes inst.now) }
{
    match inst {
        Inst::Alloc { size, .. } => size.div_ceil(16).saturating_mul(16),
        _ => 0,
    }
}

/// The number of a function's phis.
fn phi_count(function: &Func) -> u64
    ensures { result ≡ capped (phi_count function.now) }
{
    let mut total: u64 = 0;
    let blocks = function.blocks.as_slice();
    for block in blocks {
        total = total.saturating_add(block.phis.len() as u64);
    }
    total
}

/// The most arguments past the eighth in one of a function's calls.
#[tactic(auto, using(crate::proofs::Largest::largest_of_more))]
fn args_past_eight(function: &Func) -> u64
    ensures { result ≡ largest_of function.now.blocks }
{
    let mut most: u64 = 0;
    let blocks = function.blocks.as_slice();
    for block in blocks {
        most = most.max(largest_call(block.insts.as_slice()));
    }
    most
}

#[tactic(auto, using(crate::proofs::Largest::largest_in_more))]
fn largest_call(insts: &[Lined<Inst>]) -> u64
    ensures { result ≡ largest_in insts.now }
{
    let mut most: u64 = 0;
    for inst in insts {
        most = most.max(args_on_stack(&inst.item));
    }
    most
}

fn args_on_stack(inst: &Inst) -> u64
    ensures { result ≡ args_on_stack inst.now }
{
    match inst {
        Inst::Call { args, .. } => (args.len() as u64).saturating_sub(8),
        _ => 0,
    }
}

/// How many bytes of stack an activation of a function takes from the room that a call has. The
/// function's measures lie within the limits of a text.
pub fn need(function: &Func) -> u64
    requires { need function.now < 2 ^ 63 }
    ensures { result ≡ need function.now }
{
    let temps = function.temps.len() as u64;
    let slots = temps + phi_count(function) + args_past_eight(function) + 16;
    let bytes = alloc_area(function) + 8 * slots;
    (bytes + 15) / 16 * 16
}

/// The same of any function; a number that would pass 64 bits stays at the largest one.
pub fn capped_need(function: &Func) -> u64
    ensures { result ≡ capped (need function.now) }
{
    let slots = (function.temps.len() as u64)
        .saturating_add(phi_count(function))
        .saturating_add(args_past_eight(function))
        .saturating_add(16);
    let bytes = alloc_area(function).saturating_add(slots.saturating_mul(8));
    bytes.div_ceil(16).saturating_mul(16)
}
