// One 32-bit number of the word store: the word in bits 29 to 0, and above it two marks of spoiled halves: bit 31 of the upper one, bit 30 of the lower.
ghost use Rattle.std.specs.Prelude.{◌≡◌, Ok, IfOk};
ghost use Rattle.store.specs.Cells.{part, other_half, value_of, with_half};
ghost use Rattle.store.specs.Functions.{if_good, word_of};
ghost use Rattle.stores.specs.Word.{cell_of, half_written};

use store::{Fault, Half};
use words::{HalfWord, Word, half_bits, join, word_bits};

// A half of the number, if it is good.
pub(crate) fn good_half(number: u32, half: Half) -> Option<HalfWord>
    ensures { result ≡ value_of (part (cell_of number) half) }
{
    match half {
        Half::Upper => ((number >> 31) % 2 == 0).then_some(word_bits(number).upper_half()),
        Half::Lower => ((number >> 30) % 2 == 0).then_some(word_bits(number).lower_half()),
    }
}

// The word of the number, if both halves are good; the upper mark counts first.
pub(crate) fn word(number: u32) -> Result<Word, Fault>
    ensures { result ≡ word_of (cell_of number) }
{
    match number >> 30 {
        0 => Ok(word_bits(number)),
        1 => Err(Fault::Spoiled(Half::Lower)),
        _ => Err(Fault::Spoiled(Half::Upper)),
    }
}

// The number with other bits in one half, and no marks; or the fault of the other half.
pub(crate) fn put_half(number: u32, half: Half, value: u32) -> Result<Word, Fault>
    ensures answer { result ≡ if_good (cell_of number) (other_half half) (Ok (half_written number half value)) }
    ensures cell { IfOk result (λ x. cell_of x ≡ with_half (cell_of number) half value) }
{
    let other = half.other();
    let beside = good_half(number, other).ok_or(Fault::Spoiled(other))?;
    match half {
        Half::Upper => Ok(join(half_bits(value), beside)),
        Half::Lower => Ok(join(beside, half_bits(value))),
    }
}
