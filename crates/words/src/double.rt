// Two words as one number of 60 bits, as the shifts and comparisons of A and Q take them.
ghost use Rattle.std.specs.Prelude.{◌≡◌, ℕ, ◌%◌, ◌^◌, ◌<◌};
ghost use Rattle.words.specs.Double.{over, upper_word, lower_word};

use super::Word;
use super::numbers::lowest;
use std::marker::Model;

// A number of 60 bits: an upper word over a lower one.
#[derive(Clone, Copy, Debug, PartialEq, Eq)]
pub struct DoubleWord {
    number: u64,
}

impl Model for DoubleWord {
    ghost Value = { ℕ };

    ghost view = { λ d. d.number };

    ghost invariant = { λ d. d.number < 2 ^ 60 };

    ghost inverse = { λ n. record { number = n } };
}

impl DoubleWord {
    // The lowest 60 bits of a number.
    pub(crate) fn new(number: u64) -> DoubleWord
        ensures { result ≡ number % 2 ^ 60 }
    {
        DoubleWord {
            number: lowest::<60>(number),
        }
    }

    // The number.
    pub(crate) fn get(self) -> u64
        ensures value { result ≡ self }
        ensures small { result < 2 ^ 60 }
    {
        self.number
    }

    // Bits 59 to 30.
    pub fn upper(self) -> Word
        ensures { result ≡ upper_word self }
    {
        Word::new((self.number >> 30) as u32)
    }

    // Bits 29 to 0.
    pub fn lower(self) -> Word
        ensures value { result ≡ lower_word self }
        ensures whole { over (upper_word self) result ≡ self }
    {
        Word::new(lowest::<30>(self.number) as u32)
    }
}

impl Word {
    // This word over another.
    pub fn over(self, lower: Word) -> DoubleWord
        ensures value { result ≡ over self lower }
        ensures upper { upper_word result ≡ self }
        ensures lower { lower_word result ≡ lower }
    {
        DoubleWord::new((u64::from(self.get()) << 30) + u64::from(lower.get()))
    }
}
