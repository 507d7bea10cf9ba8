// Numbers: decimal digits, `0o` and octal digits, or `0x` and hexadecimal digits.
ghost use Rattle.std.specs.Prelude.{◌≡◌, ℕ, ◌+◌, ◌*◌, ◌^◌, ◌<◌, ◌≤◌, min, Ok, decimal};
ghost use Rattle.script.specs.Number.{in_base, number_of, number_up_to};

use crate::reason::Reason;

// A number with one digit more. From 2^32 on it stays at 2^32, which is too large already.
fn with_digit(number: u64, base: u32, digit: u32) -> u64
    requires number { number ≤ 2 ^ 32 }
    requires base { base ≤ 36 }
    ensures { result ≡ min (number * base + digit) (2 ^ 32) }
{
    (number * u64::from(base) + u64::from(digit)).min(1 << 32)
}

// The number that digits of a base write. By a loop, which takes each digit once: to try all of them first and then have the library read them took twice as long.
fn in_base(base: u32, digits: &[u8]) -> Result<u32, Reason>
    requires least { 2 ≤ base }
    requires most { base ≤ 36 }
    ensures { result ≡ in_base base digits.now }
{
    if digits.is_empty() {
        return Err(Reason::NotANumber);
    }
    let mut number: u64 = 0;
    for byte in digits {
        let Some(digit) = char::from(*byte).to_digit(base) else {
            return Err(Reason::NotANumber);
        };
        number = with_digit(number, base, digit);
    }
    if number < 1 << 32 {
        Ok(number as u32)
    } else {
        Err(Reason::TooLarge)
    }
}

// The number that a word is.
pub fn read_number(word: &[u8]) -> Result<u32, Reason>
    ensures value { result ≡ number_of word.now }
    ensures reads_back { (n : ℕ) → n < 2 ^ 32 → word.now ≡ decimal n → result ≡ Ok n }
{
    match word {
        [b'0', b'o', digits @ ..] => in_base(8, digits),
        [b'0', b'x', digits @ ..] => in_base(16, digits),
        _ => in_base(10, word),
    }
}

// The number that a word is, if it is no larger than another.
pub(crate) fn read_number_up_to(most: u32, word: &[u8]) -> Result<u32, Reason>
    ensures { result ≡ number_up_to most word.now }
{
    let number = read_number(word)?;
    if number > most {
        return Err(Reason::OutOfRange);
    }
    Ok(number)
}
