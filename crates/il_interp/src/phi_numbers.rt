//! Phis that take integers.
ghost use Rattle.std.specs.Prelude.{◌≡◌, [], ◌∷◌, List, map, Some, IfOk, IfSome, MatchBool, true, option_map};
ghost use Rattle.il_ast.specs.declared.value.Value.{Value as ValueOf};
ghost use Rattle.il_ast.specs.declared.value.Value.TheVariants.{Integer};
ghost use Rattle.il_ast.specs.Prelude.{phi_value, phi_values, with_phis};
ghost use Rattle.il_types.specs.Prelude.{are_distinct, are_all_distinct};

use crate::numbers::{in_class, number_at};
use crate::slots::Slots;
use il_ast::{Label, Phi};
use il_types::arguments::argument_at;
use std::alloc::AllocError;

/// The number that a phi takes, where its argument is the one at `place`, and an integer.
#[tactic(auto, using(crate::proofs::RowLemmas::operand_is))]
pub fn phi_number(temps: &Slots, from: Label, place: usize, phi: &Phi) -> Option<u64>
    requires { are_distinct phi.now.args ≡ true }
    ensures { IfSome result (λ number. (globals : List ValueOf) → phi_value globals temps.now from phi.now ≡ Some (Integer number)) }
{
    let arg = argument_at(phi.args.as_slice(), from, place)?;
    let number = number_at(temps, &arg.value)?;
    Some(in_class(phi.to.class, number))
}

/// Reads the numbers that phis take, of which none is written yet. Answers whether all take integers, whose
/// arguments are the ones at `places`.
fn read_numbers(
    temps: &Slots,
    from: Label,
    places: &[usize],
    phis: &[Phi],
    numbers: &mut Vec<u64>,
) -> Result<bool, AllocError>
    requires { are_all_distinct phis.now ≡ true }
    ensures { IfOk result (λ all. MatchBool all ((globals : List ValueOf) → phi_values globals temps.now from phis.now ≡ Some (map Integer numbers.new.items)) (Unit {0})) }
{
    numbers.clear();
    if places.len() != phis.len() {
        return Ok(false);
    }
    for at in 0..phis.len() {
        match phi_number(temps, from, places[at], &phis[at]) {
            Some(number) => numbers.push(number)?,
            None => return Ok(false),
        }
    }
    Ok(true)
}

/// Writes the numbers that phis take.
fn write_numbers(temps: &mut Slots, phis: &[Phi], numbers: &[u64])
    ensures { temps.new ≡ with_phis temps.old phis.now (map Integer numbers.now) }
{
    match phis {
        [] => {}
        [phi, phis @ ..] => match numbers {
            [] => {}
            [number, numbers @ ..] => {
                temps.set_number(phi.to.temp.number(), *number);
                write_numbers(temps, phis, numbers);
            }
        },
    }
}

/// Gives phis their values where these all are integers, however many there are.
fn take_all(
    temps: &mut Slots,
    from: Label,
    places: &[usize],
    phis: &[Phi],
    numbers: &mut Vec<u64>,
) -> Result<bool, AllocError>
    requires { are_all_distinct phis.now ≡ true }
    ensures { IfOk result (λ all. MatchBool all ((globals : List ValueOf) → option_map (with_phis temps.old phis.now) (phi_values globals temps.old from phis.now) ≡ Some temps.new) (temps.new ≡ temps.old)) }
{
    let all = read_numbers(temps, from, places, phis, numbers)?;
    if all {
        write_numbers(temps, phis, numbers.as_slice());
    }
    Ok(all)
}

/// The same of one phi.
fn take_one(temps: &mut Slots, from: Label, places: &[usize], phi: &Phi) -> bool
    requires { are_distinct phi.now.args ≡ true }
    ensures { MatchBool result ((globals : List ValueOf) → option_map (with_phis temps.old (phi.now ∷ [])) (phi_values globals temps.old from (phi.now ∷ [])) ≡ Some temps.new) (temps.new ≡ temps.old) }
{
    if let [place] = places
        && let Some(number) = phi_number(temps, from, *place, phi)
    {
        temps.set_number(phi.to.temp.number(), number);
        return true;
    }
    false
}

/// The same of two.
fn take_two(temps: &mut Slots, from: Label, places: &[usize], one: &Phi, two: &Phi) -> bool
    requires one { are_distinct one.now.args ≡ true }
    requires two { are_distinct two.now.args ≡ true }
    ensures { MatchBool result ((globals : List ValueOf) → option_map (with_phis temps.old (one.now ∷ two.now ∷ [])) (phi_values globals temps.old from (one.now ∷ two.now ∷ [])) ≡ Some temps.new) (temps.new ≡ temps.old) }
{
    if let [first, second] = places
        && let Some(a) = phi_number(temps, from, *first, one)
        && let Some(b) = phi_number(temps, from, *second, two)
    {
        temps.set_number(one.to.temp.number(), a);
        temps.set_number(two.to.temp.number(), b);
        return true;
    }
    false
}

/// Gives phis their values where these all are integers, and their arguments the ones at `places`. Answers
/// whether that was so.
pub fn take_numbers(
    temps: &mut Slots,
    from: Label,
    places: &[usize],
    phis: &[Phi],
    numbers: &mut Vec<u64>,
) -> Result<bool, AllocError>
    requires { are_all_distinct phis.now ≡ true }
    ensures { IfOk result (λ all. MatchBool all ((globals : List ValueOf) → option_map (with_phis temps.old phis.now) (phi_values globals temps.old from phis.now) ≡ Some temps.new) (temps.new ≡ temps.old)) }
{
    match phis {
        [one] => Ok(take_one(temps, from, places, one)),
        [one, two] => Ok(take_two(temps, from, places, one, two)),
        _ => take_all(temps, from, places, phis, numbers),
    }
}
