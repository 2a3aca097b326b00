//! The rules of a good text.

/// A rule that a text can break.
#[derive(Clone, Copy, Debug)]
pub enum Rule {
    DistinctGlobals,
    DistinctLocals,
    KnownLabels,
    EntryNotTarget,
    LastBlockEnds,
    OneType,
    OperandFits,
    PhiCoversPredecessors,
    AllocInEntry,
    ReturnFits,
    DefinedTemporaries,
    DataFields,
    Alignment,
    BlitSize,
}

impl Rule {
    ghost use Rattle.std.specs.Prelude.{◌≡◌};
    ghost use Rattle.il_types.specs.RuleNumber.{rule_number};

    /// The number that a refusal prints, 1 to 14.
    pub fn number(self) -> u8
        ensures { result ≡ rule_number self }
    {
        match self {
            Rule::DistinctGlobals => 1,
            Rule::DistinctLocals => 2,
            Rule::KnownLabels => 3,
            Rule::EntryNotTarget => 4,
            Rule::LastBlockEnds => 5,
            Rule::OneType => 6,
            Rule::OperandFits => 7,
            Rule::PhiCoversPredecessors => 8,
            Rule::AllocInEntry => 9,
            Rule::ReturnFits => 10,
            Rule::DefinedTemporaries => 11,
            Rule::DataFields => 12,
            Rule::Alignment => 13,
            Rule::BlitSize => 14,
        }
    }
}

/// A rule that is broken, at a line.
#[derive(Clone, Copy, Debug)]
pub struct BrokenRule {
    pub rule: Rule,
    pub line: usize,
}
