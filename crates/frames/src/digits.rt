// Hexadecimal digits: 0 to 9 and A to F.
ghost use Rattle.std.specs.Prelude.{◌≡◌, ◌%◌, ◌<◌, IfOk};
ghost use Rattle.frames.specs.Digits.{digit_of, letter_of};

use crate::fault::LineFault;

// The number that a digit stands for: by cases of literals, since to_digit also takes small letters.
pub(crate) fn digit(c: char) -> Result<u8, LineFault>
    ensures value { result ≡ digit_of c }
    ensures bound { IfOk result (λ d. d < 16) }
{
    match c {
        '0'..='9' => Ok(c as u8 - 48),
        'A'..='F' => Ok(c as u8 - 55),
        _ => Err(LineFault::NoDigit),
    }
}

// The digit of the low half of a byte: by a test, since from_digit gives small letters.
pub(crate) fn letter(b: u8) -> u8
    ensures { result ≡ letter_of (b % 16) }
{
    let d = b % 16;
    if d < 10 { d + 48 } else { d + 55 }
}
