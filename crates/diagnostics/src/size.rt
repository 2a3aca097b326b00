//! What is wrong with the sizes that instructions name.
use crate::name::Count;
use il_ast::limits::{ALLOC_BYTES, BLIT_BYTES};
use il_ast::{Block, Func, Inst};
use text_maker::{TextMaker, say};

/// The instruction at a line of a block.
fn instruction_at(block: &Block, line: usize) -> Option<&Inst> {
    let mut insts = block.insts.as_slice().iter();
    Some(&insts.find(|inst| inst.line == line)?.item)
}

/// Whether an instruction is an `alloc` outside the first block, or of a size that it may not have.
pub fn is_wrong_alloc(inst: &Inst, is_entry: bool) -> bool {
    matches!(inst, Inst::Alloc { size, .. } if !is_entry || *size == 0 || *size > ALLOC_BYTES)
}

/// Whether an instruction is a `blit` of too many bytes.
pub fn is_long_blit(inst: &Inst) -> bool {
    matches!(inst, Inst::Blit { count, .. } if *count > BLIT_BYTES)
}

/// An `alloc` outside the first block, or of a size that it may not have.
pub fn add_wrong_alloc(words: &mut TextMaker, function: &Func, line: usize) {
    let most = Count(ALLOC_BYTES);
    if let Some(entry) = function.blocks.as_slice().first()
        && let Some(Inst::Alloc { size, .. }) = instruction_at(entry, line)
    {
        say!(words; "an alloc of {} bytes: it takes from 1 to {most}", Count(*size));
    } else {
        words.add("an alloc outside the first block");
    }
}

/// A `blit` of too many bytes.
pub fn add_long_blit(words: &mut TextMaker, function: &Func, line: usize) {
    let mut blocks = function.blocks.as_slice().iter();
    if let Some(Inst::Blit { count, .. }) = blocks.find_map(|block| instruction_at(block, line)) {
        let most = Count(BLIT_BYTES);
        say!(words; "{} bytes in a blit, at most {most}", Count(*count));
    }
}
