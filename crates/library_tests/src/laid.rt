//! Words at the ends of each form's range, as the GNU assembler gives them, and whole functions.

ghost use Rattle.std.specs.Prelude.{◌≡◌, ◌<◌, ◌≤◌, true, false};
ghost use Rattle.rv_isa.specs.Prelude.{longest, has_label_below};

use crate::same::is_number;
use asm_layout::call::CallForm;
use asm_layout::layout::layout;
use rv_isa::{
    BranchOp, Filling, Hole, ImmOp, Immediate, Instr, Item, LabelledCode, Partial, Register,
    Relocation,
};
use std::alloc::AllocError;
use std::process::Abort;

const X0: Register = Register { number: 0 };

const X10: Register = Register { number: 10 };

const NOP: Item = Item::Plain(Instr::Imm {
    op: ImmOp::Addi,
    rd: X0,
    rs1: X0,
    immediate: Immediate { value: 0 },
});

const NOP_WORD: u32 = 0x0000_0013;

const BRANCH: Item = Item::Branch {
    op: BranchOp::Beq,
    rs1: X10,
    rs2: X0,
    label: 0,
};

const BRANCH_UNEQUAL: Item = Item::Branch {
    op: BranchOp::Bne,
    rs1: X10,
    rs2: X0,
    label: 0,
};

const BRANCH_BELOW: Item = Item::Branch {
    op: BranchOp::Bltu,
    rs1: X10,
    rs2: X0,
    label: 0,
};

const JUMP: Item = Item::Goto(0);

// The address of a global in x10.
const UPPER: Relocation = Relocation {
    instruction: Partial::Upper(X10),
    global: 7,
    offset: Immediate { value: 0 },
};

const LOWER: Relocation = Relocation {
    instruction: Partial::Add { rd: X10, rs1: X10 },
    global: 7,
    offset: Immediate { value: 0 },
};

// Whether a hole is that of a part of an address.
fn part_in(hole: &Hole) -> Option<Partial> {
    match hole.filling {
        Filling::Part(relocation) => Some(relocation.instruction),
        _ => None,
    }
}

// Whether these are the holes of the two words of that address, in the second word and the third.
fn are_halves(holes: &[Hole]) -> bool {
    let [upper, lower] = holes else {
        return false;
    };
    let has_upper = matches!(part_in(upper), Some(Partial::Upper(_)));
    let has_lower = matches!(part_in(lower), Some(Partial::Add { .. }));
    has_upper && upper.word == 1 && has_lower && lower.word == 2
}

// A function of so many words, which begins with the words `first` and ends with the words `last`.
fn is_laid(
    rt: &(impl Abort + AllocGlobal),
    code: LabelledCode,
    words: usize,
    first: &[u32],
    last: &[u32],
) -> Result<(), AllocError> {
    let laid = layout(rt.alloc(), CallForm::Near, code)?;
    is_number(rt, laid.words().len(), words);
    assert!(rt; laid.words().starts_with(first));
    assert!(rt; laid.words().ends_with(last));
    assert!(rt; laid.holes().is_empty());
    Ok(())
}

// An item that goes to a label behind so many words, of which it may take three: how many words that becomes, and the first of them.
#[tactic(auto, using(crate::proofs::Going::goes_ahead))]
fn ahead(
    rt: &(impl Abort + AllocGlobal),
    going: Item,
    words: usize,
    laid: usize,
    first: &[u32],
) -> Result<(), AllocError>
    requires some { 0 < words }
    requires few { words < 2_000_000 }
    requires below { has_label_below 1 going ≡ true }
    requires takes { 0 < longest going }
    requires short { longest going ≤ 3 }
{
    let mut items = vec![in rt.alloc(); NOP; words]?;
    items[0] = going;
    items.push(Item::Label(0))?;
    is_laid(rt, LabelledCode::new(items, 1), laid, first, &[NOP_WORD])
}

// The other way round, and the last words.
#[tactic(auto, using(crate::proofs::Going::goes_back))]
fn back(
    rt: &(impl Abort + AllocGlobal),
    going: Item,
    words: usize,
    laid: usize,
    last: &[u32],
) -> Result<(), AllocError>
    requires some { 0 < words }
    requires few { words < 2_000_000 }
    requires below { has_label_below 1 going ≡ true }
    requires takes { 0 < longest going }
    requires short { longest going ≤ 3 }
{
    let mut items = vec![in rt.alloc(); NOP; words]?;
    items[0] = Item::Label(0);
    items.push(going)?;
    is_laid(rt, LabelledCode::new(items, 1), laid, &[NOP_WORD], last)
}

// Each ahead and back, by their words at the front and at the end: a jump takes two words where `jal` might not reach.
#[test]
fn jumps_grow_at_the_ends_of_their_range(rt: HostRuntime) -> Result<(), AllocError> {
    ahead(&rt, JUMP, 262_142, 262_142, &[0x7f9f_f06f, NOP_WORD])?;
    ahead(&rt, JUMP, 262_143, 262_144, &[0x0010_0f97, 0x000f_8067])?;
    back(&rt, JUMP, 262_144, 262_144, &[NOP_WORD, 0x8040_006f])?;
    back(&rt, JUMP, 262_145, 262_146, &[0xfff0_0f97, 0x000f_8067])
}

#[test]
fn jumps(rt: HostRuntime) -> Result<(), AllocError> {
    back(&rt, JUMP, 2, 2, &[0xffdf_f06f])?;
    ahead(&rt, JUMP, 299_999, 300_000, &[0x0012_5f97, 0xf80f_8067])?;
    back(&rt, JUMP, 300_001, 300_002, &[0xffed_bf97, 0x080f_8067])
}

#[test]
fn branches(rt: HostRuntime) -> Result<(), AllocError> {
    ahead(&rt, BRANCH, 1023, 1024, &[0x0005_1463, 0x7fd0_006f])?;
    let words = [0x0005_7663, 0x0012_5f97, 0xf7cf_8067];
    ahead(&rt, BRANCH_BELOW, 299_998, 300_000, &words)
}

#[test]
fn branches_ahead_grow_at_the_ends_of_their_ranges(rt: HostRuntime) -> Result<(), AllocError> {
    ahead(&rt, BRANCH, 1021, 1021, &[0x7e05_0ae3, NOP_WORD])?;
    ahead(&rt, BRANCH, 1022, 1023, &[0x0005_1463, 0x7f90_006f])?;
    ahead(&rt, BRANCH, 262_141, 262_142, &[0x0005_1463, 0x7f5f_f06f])?;
    let words = [0x0005_1663, 0x0010_0f97, 0xffcf_8067];
    ahead(&rt, BRANCH, 262_142, 262_144, &words)
}

#[test]
fn branches_back_grow_at_the_ends_of_their_ranges(rt: HostRuntime) -> Result<(), AllocError> {
    back(&rt, BRANCH, 1025, 1025, &[NOP_WORD, 0x8005_0063])?;
    back(&rt, BRANCH, 1026, 1027, &[0x0005_1463, 0xff9f_e06f])?;
    back(&rt, BRANCH, 262_144, 262_145, &[0x0005_1463, 0x8000_006f])?;
    let words = [0x0005_1663, 0xfff0_0f97, 0xffcf_8067];
    back(&rt, BRANCH, 262_145, 262_147, &words)
}

// One word further than each form reaches.
#[test]
fn branches_and_jumps_past_the_ends_of_their_ranges(rt: HostRuntime) -> Result<(), AllocError> {
    ahead(&rt, BRANCH, 1024, 1025, &[0x0005_1463, 0x0000_106f])?;
    ahead(&rt, JUMP, 262_144, 262_145, &[0x0010_0f97, 0x004f_8067])?;
    let words = [0x0005_0663, 0x0010_0f97, 0x000f_8067];
    ahead(&rt, BRANCH_UNEQUAL, 262_143, 262_145, &words)?;
    let words = [0x0005_0663, 0x0010_0f97, 0x004f_8067];
    ahead(&rt, BRANCH_UNEQUAL, 262_144, 262_146, &words)
}

// A loop that is left by a branch, with the address of a global.
#[test]
fn a_function_of_all_items(rt: HostRuntime) -> Result<(), AllocError> {
    let items = vec![in rt.alloc();
        Item::Label(0),
        BRANCH,
        Item::Relocated(UPPER),
        Item::Relocated(LOWER),
        NOP,
        JUMP,
    ]?;
    let laid = layout(rt.alloc(), CallForm::Near, LabelledCode::new(items, 1))?;
    let words: &[u32] = &[0x0005_0063, 0x0000_0537, 0x0005_0513, NOP_WORD, 0xff1f_f06f];
    assert!(rt; laid.words() == words);
    assert!(rt; are_halves(laid.holes()));
    Ok(())
}
