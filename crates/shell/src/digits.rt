//! Numbers in hexadecimal, written without taking memory.
ghost use Rattle.std.specs.Prelude.{◌≡◌, ◌<◌, false};
ghost use Rattle.std.specs.Fmt.{digit_glyph};
ghost use Rattle.shell.specs.Digits.{sixteen_digits};

/// The character of a hexadecimal digit.
fn digit(value: u64) -> u8
    requires { value < 16 }
    ensures { result ≡ digit_glyph false value }
{
    if value < 10 {
        b'0' + value as u8
    } else {
        b'a' - 10 + value as u8
    }
}

/// A number as sixteen hexadecimal digits, in lower case.
pub fn sixteen_digits(number: u64) -> [u8; 16]
    ensures { result ≡ sixteen_digits number }
{
    let mut digits = [0; 16];
    for place in 0..16 {
        digits[place] = digit(number >> (60 - 4 * place) & 0xf);
    }
    digits
}
