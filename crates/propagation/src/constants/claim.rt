//! What is claimed of registers where blocks begin.
ghost use Rattle.std.specs.Prelude.{◌≡◌, true, Some};
ghost use Rattle.propagation.specs.declared.constants.fact.Fact.TheVariants.{Same};
ghost use Rattle.propagation.specs.FactTable.{facts_of};
ghost use Rattle.propagation.specs.Forwarded.{claims_at, AreKnown, LeadsWell};

use crate::constants::fact::Fact;
use crate::constants::table::FactTable;
use il_ast::Seq;
use vcode::{Jump, Operand};

/// The register holds what the operand does.
#[derive(Clone, Copy)]
pub(crate) struct Claim {
    pub(crate) register: u32,
    pub(crate) value: Operand<u32>,
}

/// What is claimed where a block begins.
#[derive(Drop)]
pub(crate) struct Entry {
    pub(crate) claims: Seq<Claim>,
}

/// What is claimed where the block begins.
pub(crate) fn claims_at(entries: &[Entry], block: usize) -> &[Claim]
    ensures { result.now ≡ claims_at entries.now block }
{
    match entries.get(block) {
        Some(entry) => entry.claims.as_slice(),
        None => &[],
    }
}

fn same_operand(one: &Operand<u32>, other: &Operand<u32>) -> bool
    ensures { result ≡ true → one.now ≡ other.now }
{
    match one {
        Operand::At(register) => match other {
            Operand::At(place) => *register == *place,
            _ => false,
        },
        Operand::Number(number) => match other {
            Operand::Number(value) => *number == *value,
            _ => false,
        },
        Operand::Name(_) => false,
    }
}

/// Whether the claim is known to be true.
fn is_known(table: &FactTable, claim: &Claim) -> bool
    ensures { result ≡ true → facts_of table.now claim.now.register ≡ Some (Same claim.now.value) }
{
    match table.fact(claim.register) {
        Some(Fact::Same(operand)) => same_operand(&operand, &claim.value),
        _ => false,
    }
}

fn are_known(table: &FactTable, claims: &[Claim]) -> bool
    ensures { result ≡ true → AreKnown (facts_of table.now) claims.now }
{
    for claim in claims {
        if !is_known(table, claim) {
            return false;
        }
    }
    true
}

/// Whether what is claimed of each block that the jump may lead to is known.
pub(crate) fn leads_well(table: &FactTable, entries: &[Entry], jump: &Jump<u32>) -> bool
    ensures { result ≡ true → LeadsWell entries.now (facts_of table.now) jump.now }
{
    match jump {
        Jump::Goto(to) => are_known(table, claims_at(entries, *to)),
        Jump::Branch { met, otherwise, .. } => {
            are_known(table, claims_at(entries, *met))
                && are_known(table, claims_at(entries, *otherwise))
        }
        Jump::Return(_) | Jump::Halt => true,
    }
}
