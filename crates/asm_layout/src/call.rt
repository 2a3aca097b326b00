//! The forms of calls of globals.

ghost use Rattle.std.specs.Prelude.{◌≡◌, ◌++◌, [], drop, IfOk, OnOk};
ghost use Rattle.rv_isa.specs.Prelude.{IsLabelled};
ghost use Rattle.asm_layout.specs.Forms.{link, far_call, with_far_call, with_far_calls, formed};

use rv_isa::{Item, LabelledCode, Partial, Register, Relocation, abi};
use std::alloc::{AllocError, Global};

/// How calls of globals are made.
#[derive(Clone, Copy)]
pub enum CallForm {
    /// `jal`, which reaches from 2^20 bytes back to just below 2^20 ahead.
    Near,
    /// `lui` and `jalr` through x1, which reach each address below 2^30.
    Far,
}

/// x1, for the address behind a call.
fn link() -> Register
    ensures { result ≡ link }
{
    Register {
        number: abi::RETURN_ADDRESS % 32,
    }
}

fn push_far_call(items: &mut Vec<Item>, global: usize) -> Result<(), AllocError>
    ensures { OnOk result (items.new.items ≡ items.old.items ++ far_call global) }
{
    let through = link();
    let jump = Partial::Jump {
        rd: through,
        rs1: through,
    };
    items.push(Item::Relocated(Relocation::of_global(Partial::Upper(through), global)))?;
    items.push(Item::Relocated(Relocation::of_global(jump, global)))?;
    Ok(())
}

fn push_with_far_call(items: &mut Vec<Item>, item: &Item) -> Result<(), AllocError>
    ensures { OnOk result (items.new.items ≡ items.old.items ++ with_far_call item.now) }
{
    match item {
        Item::Call(global) => push_far_call(items, *global)?,
        _ => items.push(*item)?,
    }
    Ok(())
}

fn with_far_calls(alloc: Global, items: &[Item]) -> Result<Vec<Item>, AllocError>
    ensures { IfOk result (λ v. v.items ≡ with_far_calls items.now) }
{
    let mut all = Vec::with_capacity(alloc, items.len())?;
    for item in items {
        push_with_far_call(&mut all, item)?;
    }
    Ok(all)
}

/// The code with its calls in this form.
pub fn formed(alloc: Global, form: CallForm, code: LabelledCode) -> Result<LabelledCode, AllocError>
    ensures value { IfOk result (λ c. c ≡ formed form code) }
    ensures labelled { IsLabelled code }
{
    let labels = code.labels();
    match form {
        CallForm::Near => Ok(code),
        CallForm::Far => {
            let items = with_far_calls(alloc, code.items())?;
            Ok(LabelledCode::new(items, labels))
        }
    }
}
