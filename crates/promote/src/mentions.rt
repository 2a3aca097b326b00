//! The mentions of a function's temporaries, in the order of its text.
ghost use Rattle.std.specs.Prelude.{◌≡◌, [], ◌∷◌, ◌++◌, OnOk, IfOk, flat_map};
ghost use Rattle.promote.specs.Uses.{value_mentions, extension_size, operand_role, destination_mentions, arg_mentions, item_mentions, inst_mentions, jump_mentions, end_mentions, phi_arg_mentions, phi_mentions, block_mentions, param_mentions, mentions_of, mention};

use crate::mention::{Mention, Role};
use il_ast::{
    Arg, Block, Class, Dest, Extension, Func, Inst, Jump, Lined, Param, Phi, PhiArg, Size, UnaryOp,
    Val,
};
use std::alloc::{AllocError, Global};

/// All mentions of a function's temporaries.
pub fn mentions(alloc: Global, function: &Func) -> Result<Vec<Mention>, AllocError>
    ensures { IfOk result (λ found. found.items ≡ mentions_of function.now) }
{
    let mut found = Vec::with_capacity(alloc, function.temps.len().saturating_mul(3))?;
    collect_params(function.params.as_slice(), &mut found)?;
    collect_blocks(function.blocks.as_slice(), &mut found)?;
    Ok(found)
}

fn collect_params(params: &[Param], found: &mut Vec<Mention>) -> Result<(), AllocError>
    ensures { OnOk result (found.new.items ≡ found.old.items ++ flat_map param_mentions params.now) }
{
    for param in params {
        found.push(Mention {
            temp: param.temp,
            role: Role::Used,
        })?;
    }
    Ok(())
}

/// The mentions in blocks, behind those that were found.
pub fn collect_blocks(blocks: &[Block], found: &mut Vec<Mention>) -> Result<(), AllocError>
    ensures { OnOk result (found.new.items ≡ found.old.items ++ flat_map block_mentions blocks.now) }
{
    for block in blocks {
        collect_phis(block.phis.as_slice(), found)?;
        collect_insts(block.insts.as_slice(), found)?;
        if let Some(jump) = &block.jump {
            collect_jump(&jump.item, found)?;
        }
    }
    Ok(())
}

fn collect_phis(phis: &[Phi], found: &mut Vec<Mention>) -> Result<(), AllocError>
    ensures { OnOk result (found.new.items ≡ found.old.items ++ flat_map phi_mentions phis.now) }
{
    for phi in phis {
        found.push(Mention {
            temp: phi.to.temp,
            role: Role::Used,
        })?;
        collect_phi_args(phi.args.as_slice(), found)?;
    }
    Ok(())
}

fn collect_phi_args(args: &[PhiArg], found: &mut Vec<Mention>) -> Result<(), AllocError>
    ensures { OnOk result (found.new.items ≡ found.old.items ++ flat_map phi_arg_mentions args.now) }
{
    for arg in args {
        collect_value(Role::Used, arg.value, found)?;
    }
    Ok(())
}

fn collect_args(args: &[Arg], found: &mut Vec<Mention>) -> Result<(), AllocError>
    ensures { OnOk result (found.new.items ≡ found.old.items ++ flat_map arg_mentions args.now) }
{
    for arg in args {
        collect_value(Role::Used, arg.value, found)?;
    }
    Ok(())
}

fn collect_insts(insts: &[Lined<Inst>], found: &mut Vec<Mention>) -> Result<(), AllocError>
    ensures { OnOk result (found.new.items ≡ found.old.items ++ flat_map inst_mentions insts.now) }
{
    for inst in insts {
        collect_item(&inst.item, found)?;
    }
    Ok(())
}

fn collect_item(inst: &Inst, found: &mut Vec<Mention>) -> Result<(), AllocError>
    ensures { OnOk result (found.new.items ≡ found.old.items ++ item_mentions inst.now) }
{
    match inst {
        Inst::Unary { to, op, value } => {
            collect_dest(Role::Used, *to, found)?;
            collect_value(operand_role(*op, to.class), *value, found)
        }
        Inst::Binary {
            to,
            left,
            right,
            ..
        } => {
            collect_dest(Role::Used, *to, found)?;
            collect_value(Role::Used, *left, found)?;
            collect_value(Role::Used, *right, found)
        }
        Inst::Alloc { to, .. } => collect_dest(Role::Made, *to, found),
        Inst::Store { size, value, at } => {
            collect_value(Role::Used, *value, found)?;
            collect_value(Role::Accessed(*size), *at, found)
        }
        Inst::Blit { from, to, .. } => {
            collect_value(Role::Used, *from, found)?;
            collect_value(Role::Used, *to, found)
        }
        Inst::Call { to, callee, args } => {
            if let Some(to) = to {
                collect_dest(Role::Used, *to, found)?;
            }
            collect_value(Role::Used, *callee, found)?;
            collect_args(args.as_slice(), found)
        }
    }
}

fn collect_jump(jump: &Jump, found: &mut Vec<Mention>) -> Result<(), AllocError>
    ensures { OnOk result (found.new.items ≡ found.old.items ++ jump_mentions jump.now) }
{
    match *jump {
        Jump::Branch { on, .. } => collect_value(Role::Used, on, found),
        Jump::Return(Some(value)) => collect_value(Role::Used, value, found),
        _ => Ok(()),
    }
}

fn collect_dest(role: Role, to: Dest, found: &mut Vec<Mention>) -> Result<(), AllocError>
    ensures { OnOk result (found.new.items ≡ found.old.items ++ mention role to.temp ∷ []) }
{
    found.push(Mention {
        temp: to.temp,
        role,
    })?;
    Ok(())
}

fn collect_value(role: Role, value: Val, found: &mut Vec<Mention>) -> Result<(), AllocError>
    ensures { OnOk result (found.new.items ≡ found.old.items ++ value_mentions role value) }
{
    if let Val::Temp(temp) = value {
        found.push(Mention { temp, role })?;
    }
    Ok(())
}

/// What its operand is to an operation.
fn operand_role(op: UnaryOp, class: Class) -> Role
    ensures { result ≡ operand_role op class }
{
    match op {
        UnaryOp::LoadLong => match class {
            Class::W => Role::Used,
            Class::L => Role::Accessed(Size::Long),
        },
        UnaryOp::Load(extension) => Role::Accessed(extension_size(extension)),
        _ => Role::Used,
    }
}

fn extension_size(extension: Extension) -> Size
    ensures { result ≡ extension_size extension }
{
    match extension {
        Extension::SignedWord | Extension::UnsignedWord => Size::Word,
        Extension::SignedHalf | Extension::UnsignedHalf => Size::Half,
        Extension::SignedByte | Extension::UnsignedByte => Size::Byte,
    }
}
