//! Words for labelled code.

ghost use Rattle.std.specs.Prelude.{◌≡◌, ◌<◌, ◌≤◌, length, IfOk};
ghost use Rattle.rv_isa.specs.Prelude.{longest_size, LaysOut};
ghost use Rattle.asm_layout.specs.Forms.{formed, holes_of, words_of, HaveForm};

use crate::call::{CallForm, formed};
use crate::emit::{push_holes, push_words};
use crate::places::{chosen_places, longest_places};
use rv_isa::{LabelledCode, MachineCode};
use std::alloc::{AllocError, Global};

/// The words of labelled code, with holes for the addresses of globals.
fn laid(alloc: Global, code: LabelledCode) -> Result<MachineCode, AllocError>
    ensures { IfOk result (λ out. (out.words ≡ words_of code) × (out.holes ≡ holes_of code)) }
{
    let items = code.items();
    let far = longest_places(alloc, code.labels(), items)?;
    let places = chosen_places(alloc, code.labels(), far.as_slice(), items)?;
    let mut words = Vec::with_capacity(alloc, items.len())?;
    push_words(&mut words, far.as_slice(), places.as_slice(), items)?;
    let mut holes = Vec::new(alloc);
    push_holes(&mut holes, far.as_slice(), items)?;
    Ok(MachineCode::new(words, holes))
}

/// The words of a function's labelled code, with holes for the addresses of globals, and calls of these in this form.
///
/// Wherever the words stand, with addresses filled in that are within reach, the labelled code stands: `jal` reaches 2^20 bytes, and all other forms reach
/// any address. They are the words of `specs/Forms.antt`: each jump and branch has the shortest form that would reach its label if all items took their
/// longest one. There is one word at least, and no more than the items' longest forms take. Memory is all that can be wanting.
pub fn layout(alloc: Global, form: CallForm, code: LabelledCode) -> Result<MachineCode, AllocError>
    ensures laid { IfOk result (λ out. LaysOut code.items out.words out.holes) }
    ensures words { IfOk result (λ out. out.words ≡ words_of (formed form code)) }
    ensures holes { IfOk result (λ out. out.holes ≡ holes_of (formed form code)) }
    ensures calls { IfOk result (λ out. HaveForm form out.holes) }
    ensures some { IfOk result (λ out. 0 < length out.words) }
    ensures not_longer { IfOk result (λ out. length out.words ≤ longest_size code.items) }
{
    let formed = formed(alloc, form, code)?;
    laid(alloc, formed)
}
