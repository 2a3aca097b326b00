//! How often numbers are named: a list that grows as far as it must.
ghost use Rattle.std.specs.Prelude.{◌≡◌, ℕ, cond, nat_eq, OnOk};
ghost use Rattle.il_types.specs.declared.tally.Often.TheVariants.{Never};
ghost use Rattle.il_types.specs.Prelude.{named, once_more, often, is_never, is_once, is_again, times_in, NothingNamed};

use std::alloc::AllocError;

/// How often a number is named.
#[derive(Clone, Copy)]
pub enum Often {
    Never,
    Once,
    Again,
}

/// How often a number is named.
pub fn named(tally: &[Often], number: usize) -> Often
    ensures { result ≡ named tally.now number }
{
    match tally.get(number) {
        Some(often) => *often,
        None => Often::Never,
    }
}

/// Whether that is once.
pub fn is_once(often: Often) -> bool
    ensures { result ≡ is_once often }
{
    match often {
        Often::Once => true,
        Often::Never | Often::Again => false,
    }
}

/// Whether that is never.
pub fn is_never(often: Often) -> bool
    ensures { result ≡ is_never often }
{
    match often {
        Often::Never => true,
        Often::Once | Often::Again => false,
    }
}

/// Whether that is more than once.
pub fn is_again(often: Often) -> bool
    ensures { result ≡ is_again often }
{
    match often {
        Often::Again => true,
        Often::Never | Often::Once => false,
    }
}

fn once_more(often: Often) -> Often
    ensures { result ≡ once_more often }
{
    match often {
        Often::Never => Often::Once,
        Often::Once | Often::Again => Often::Again,
    }
}

/// Names a number once more.
fn name(tally: &mut Vec<Often>, number: usize) -> Result<(), AllocError>
    ensures { OnOk result ((n : ℕ) → named tally.new.items n ≡ cond (nat_eq number n) (once_more (named tally.old.items n)) (named tally.old.items n)) }
{
    while tally.len() <= number {
        tally.push(Often::Never)?;
    }
    tally[number] = once_more(tally[number]);
    Ok(())
}

/// Names each number of a list, where nothing is named yet.
#[tactic(auto, using(crate::proofs::TallyLemmas::named_further))]
pub fn name_all(tally: &mut Vec<Often>, numbers: &[usize]) -> Result<(), AllocError>
    requires { NothingNamed tally.old.items }
    ensures { OnOk result ((n : ℕ) → named tally.new.items n ≡ often (times_in n numbers.now)) }
{
    for number in numbers {
        name(tally, *number)?;
    }
    Ok(())
}

/// Makes a number one that is never named.
fn forget(tally: &mut Vec<Often>, number: usize)
    ensures { (n : ℕ) → named tally.new.items n ≡ cond (nat_eq number n) Never (named tally.old.items n) }
{
    if number < tally.len() {
        tally[number] = Often::Never;
    }
}

/// Forgets the numbers that were named.
#[tactic(auto, using(crate::proofs::TallyLemmas::forgotten_further, crate::proofs::TallyLemmas::all_forgotten))]
pub fn forget_all(tally: &mut Vec<Often>, numbers: &[usize])
    requires { (n : ℕ) → named tally.old.items n ≡ often (times_in n numbers.now) }
    ensures { NothingNamed tally.new.items }
{
    for number in numbers {
        forget(tally, *number);
    }
}
