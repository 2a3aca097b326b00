//! Which certificates are taken for code.
ghost use Rattle.std.specs.Prelude.{◌≡◌, ◌≤◌, ◌<◌, ◌-◌, ◌^◌, ◌&&◌, true, false, IfOk, IfErr};
ghost use Rattle.alloc_check.specs.declared.accept.Refused.TheVariants.{No};
ghost use Rattle.alloc_check.specs.Prelude.{placed_by, end_point, is_whole, is_accepted, sound_in};
ghost use Rattle.il_ast.specs.Prelude.{Keeps};
ghost use Rattle.vcode.specs.Prelude.{virtual_code, location_code, keeps_places, is_place};

use crate::certified::certified;
use crate::check::is_sound;
use crate::fits::is_placed;
use crate::frame_slots::fewest_slots;
use crate::whole::is_whole;
use certificates::Certificate;
use std::alloc::{AllocError, Global};
use vcode::{LFunc, VFunc};

/// Why a certificate was not taken.
#[derive(Clone, Copy)]
pub enum Refused {
    /// It isn't accepted.
    No,
    /// Memory was refused.
    Memory,
}

impl From<AllocError> for Refused {
    ghost use Rattle.std.specs.Prelude.{◌≡◌};
    ghost use Rattle.alloc_check.specs.declared.accept.Refused.TheVariants.{Memory};

    ghost from_gives = { λ _ e. e ≡ Memory };

    fn from(_refused: AllocError) -> Refused {
        Refused::Memory
    }
}

/// What is to be known before code is made.
fn is_right(alloc: Global, function: &VFunc, certificate: &Certificate) -> Result<bool, AllocError>
    ensures right { IfOk result (λ b. b ≡ (is_whole function.now certificate.now && sound_in function.now.registers function.now.code certificate.now)) }
    ensures few { IfOk result (λ b. b ≡ true → end_point 0 function.now.code.blocks < 2 ^ 64) }
{
    if !is_whole(function, certificate) {
        return Ok(false);
    }
    let right = is_sound(alloc, function, certificate)?;
    Ok(right)
}

/// The function with the places and the moves of a certificate, if that is accepted. It has the fewest slots that its places ask for, at most as many as the
/// function has registers, and goes as the virtual code does.
///
/// # Errors
///
/// `Refused::No` only where the certificate isn't accepted: a list is too short or too long, a register or place isn't there, a register has two places everywhere or a place two
/// registers, a point has for a register no place or two, two parameters have one place, a line or a jump doesn't find what it asks for, or the ticks don't pay for the moves. `Refused::Memory` only where memory
/// was refused.
pub fn accept(alloc: Global, function: &VFunc, certificate: &Certificate) -> Result<LFunc, Refused>
    ensures code { IfOk result (λ l. l.code ≡ placed_by function.now.code certificate.now) }
    ensures slots { IfOk result (λ l. l.slots ≤ function.now.registers) }
    ensures fewest { IfOk result (λ l. 0 < l.slots → keeps_places (is_place (l.slots - 1)) l.code ≡ false) }
    ensures kept { IfOk result (λ l. Keeps (virtual_code function.now) (location_code l)) }
    ensures yes { IfOk result (λ l. is_accepted function.now certificate.now ≡ true) }
    ensures no { IfErr result (λ e. e ≡ No → is_accepted function.now certificate.now ≡ false) }
{
    let right = is_right(alloc, function, certificate)?;
    if !right {
        return Err(Refused::No);
    }
    let code = certified(alloc, &function.code, certificate)?;
    if !is_placed(function.registers, &code) {
        return Err(Refused::No);
    }
    let slots = fewest_slots(function.registers, &code);
    Ok(LFunc { code, slots })
}
