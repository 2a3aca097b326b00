//! The passes on virtual code, in the order in which they go over each function. This table is the only one: whoever shows or tries what the compiler does takes it.
ghost use Rattle.std.specs.Prelude.{IfOk, IfSome};
ghost use Rattle.il_ast.specs.Prelude.{Keeps};
ghost use Rattle.vcode.specs.Prelude.{virtual_code};

use block_layout::placement::order::place_blocks;
use block_layout::tails::copy::{duplicate_tails, thread_jumps};
use code_motion::hoist::hoist_invariants;
use code_motion::later::put_off::put_off_sums;
use constant_placement::hoisting::constants::hoist_constants;
use constant_placement::sinking::sink::sink_constants;
use dead_code::remove::remove_dead_code;
use propagation::constants::propagate::{fold_branches, propagate_constants};
use propagation::copies::read::propagate_copies;
use renaming::rename::rename_webs;
use sign_extensions::copies::copy_whole_words;
use std::alloc::{AllocError, Global};
use value_numbering::reuse::reuse_values;
use vcode::VFunc;

/// A pass on virtual code.
#[derive(Clone, Copy, PartialEq, Eq)]
pub enum Pass {
    SignExtensions,
    JumpThreading,
    Renaming,
    ConstantPropagation,
    DeadCode,
    CodeMotion,
    ValueNumbering,
    ConstantSinking,
    CopyPropagation,
    SumSinking,
    ConstantHoisting,
    TailDuplication,
    BranchFolding,
    BlockPlacement,
}

/// The passes in their order. Dead lines go before values are numbered, since they would count as readers of these, and once more behind that, and behind the duplication of tails. What code motion
/// sets in front of loops is found there by value numbering; what that finds is carried on by constant propagation. Behind the duplication of tails fewer ways meet, so
/// more branches are decided and more values known.
pub const PASSES: [Pass; 19] = [
    Pass::SignExtensions,
    Pass::JumpThreading,
    Pass::Renaming,
    Pass::ConstantPropagation,
    Pass::DeadCode,
    Pass::CodeMotion,
    Pass::ValueNumbering,
    Pass::ConstantPropagation,
    Pass::ConstantSinking,
    Pass::DeadCode,
    Pass::CopyPropagation,
    Pass::SumSinking,
    Pass::ConstantHoisting,
    Pass::TailDuplication,
    Pass::BranchFolding,
    Pass::ValueNumbering,
    Pass::DeadCode,
    Pass::CopyPropagation,
    Pass::BlockPlacement,
];

impl Pass {
    /// Its name.
    pub fn name(self) -> &'static str {
        match self {
            Pass::SignExtensions => "sign_extensions",
            Pass::JumpThreading => "jump_threading",
            Pass::Renaming => "renaming",
            Pass::ConstantPropagation => "constant_propagation",
            Pass::DeadCode => "dead_code",
            Pass::CodeMotion => "code_motion",
            Pass::ValueNumbering => "value_numbering",
            Pass::ConstantSinking => "constant_sinking",
            Pass::SumSinking => "sum_sinking",
            Pass::CopyPropagation => "copy_propagation",
            Pass::ConstantHoisting => "constant_hoisting",
            Pass::TailDuplication => "tail_duplication",
            Pass::BranchFolding => "branch_folding",
            Pass::BlockPlacement => "block_placement",
        }
    }

    /// Whether what this pass changes may give an earlier one something to do again: that lines are gone gives none.
    fn is_followed(self) -> bool {
        !matches!(self, Pass::DeadCode)
    }

    /// What this pass makes of the function; none where it leaves it as it is.
    ///
    /// # Errors
    ///
    /// Only where memory was refused.
    pub fn apply(self, alloc: Global, function: &VFunc) -> Result<Option<VFunc>, AllocError>
        ensures { IfOk result (λ o. IfSome o (λ w. Keeps (virtual_code function.now) (virtual_code w))) }
    {
        match self {
            Pass::SignExtensions => copy_whole_words(alloc, function),
            Pass::JumpThreading => thread_jumps(alloc, function),
            Pass::Renaming => rename_webs(alloc, function),
            Pass::ConstantPropagation => propagate_constants(alloc, function),
            Pass::DeadCode => remove_dead_code(alloc, function),
            Pass::CodeMotion => hoist_invariants(alloc, function),
            Pass::ValueNumbering => reuse_values(alloc, function),
            Pass::ConstantSinking => sink_constants(alloc, function),
            Pass::SumSinking => put_off_sums(alloc, function),
            Pass::CopyPropagation => propagate_copies(alloc, function),
            Pass::ConstantHoisting => hoist_constants(alloc, function),
            Pass::TailDuplication => duplicate_tails(alloc, function),
            Pass::BranchFolding => fold_branches(alloc, function),
            Pass::BlockPlacement => place_blocks(alloc, function),
        }
    }
}

/// How far the passes have come with a function, in lines of their table.
#[derive(Clone, Copy)]
pub struct Progress {
    /// behind the last line whose pass changed the function so that another may follow
    changed: usize,
}

impl Progress {
    /// No pass has changed anything.
    pub fn new() -> Progress {
        Progress { changed: 0 }
    }

    /// Whether the pass in this line has something to do: it wasn't done before, or what another has changed since may give it that.
    pub fn is_due(self, line: usize, pass: Pass) -> bool {
        let first = self.changed.saturating_sub(1);
        let mut since = PASSES.iter().take(line).skip(first);
        since.all(|earlier| *earlier != pass)
    }

    /// The pass in this line has changed the function.
    pub fn note(&mut self, line: usize, pass: Pass) {
        if pass.is_followed() {
            self.changed = line.saturating_add(1);
        }
    }
}
