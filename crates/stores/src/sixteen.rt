// One 16-bit number of the parity store: bits 14 to 0 are a half, and bit 15 makes the number of ones odd where the half is good.
ghost use Rattle.std.specs.Prelude.{◌≡◌, ◌+◌, ◌^◌, ◌<◌, count_ones};
ghost use Rattle.store.specs.Cells.{good_half, value_of};
ghost use Rattle.stores.specs.Parity.{half_of, half_number};

use words::{HalfWord, half_bits};

// Is the half good?
fn is_good(number: u16) -> bool
    ensures { result ≡ (half_of number).good }
{
    number.count_ones() % 2 == 1
}

// The half that a number holds, if it is good.
pub(crate) fn good_half(number: u16) -> Option<HalfWord>
    ensures { result ≡ value_of (half_of number) }
{
    is_good(number).then_some(half_bits(u32::from(number)))
}

// These bits with bit 15 set, which is one more one.
#[tactic(auto, using(crate::specs::Odd::ones_marked))]
fn with_bit_15(bits: u16) -> u16
    requires { bits < 2 ^ 15 }
    ensures value { result ≡ 2 ^ 15 + bits }
    ensures ones { count_ones result ≡ 1 + count_ones bits }
{
    0x8000 + bits
}

// The number that holds a half, marked good.
pub(crate) fn half_number(value: u32) -> u16
    ensures value { result ≡ half_number value }
    ensures half { half_of result ≡ good_half value }
{
    // By `as`: a half fits, and a From of it would hold the same cast.
    let bits = half_bits(value).get() as u16;
    if is_good(bits) {
        bits
    } else {
        with_bit_15(bits)
    }
}
