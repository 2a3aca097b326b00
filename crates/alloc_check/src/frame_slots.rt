//! How many slots a frame needs.
ghost use Rattle.std.specs.Prelude.{◌≡◌, ◌≤◌, ◌<◌, ◌-◌, true, false};
ghost use Rattle.vcode.specs.Prelude.{keeps_places, is_place};

use crate::fits::names_places;
use vcode::{Code, Location};

/// The fewest slots of a frame that has a slot for each that the code names, if so many are enough.
pub(crate) fn fewest_slots(enough: u32, code: &Code<Location>) -> u32
    requires { keeps_places (is_place enough) code.now ≡ true }
    ensures enough { keeps_places (is_place result) code.now ≡ true }
    ensures few { result ≤ enough }
    ensures fewest { 0 < result → keeps_places (is_place (result - 1)) code.now ≡ false }
{
    if names_places(0, code) {
        return 0;
    }
    let mut short = 0;
    let mut least = enough;
    while short < least {
        let middle = short + (least - short) / 2;
        if names_places(middle, code) {
            least = middle;
        } else {
            short = middle + 1;
        }
    }
    least
}
