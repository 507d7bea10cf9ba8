// Words and their halves.
ghost use Rattle.std.specs.Prelude.{◌≡◌};
ghost use Rattle.words.specs.Words.{word_bits, half_bits, upper_half, lower_half, joined};

use super::{HalfWord, Word};

// The bits of a number that count as a word: its two halves, joined again.
pub fn word_bits(x: u32) -> Word
    ensures value { result ≡ word_bits x }
    ensures halves { result ≡ joined (upper_half x) (lower_half x) }
    ensures upper { upper_half result ≡ upper_half x }
    ensures lower { lower_half result ≡ lower_half x }
{
    Word::new(x)
}

// The bits of a number that count as a half.
pub fn half_bits(x: u32) -> HalfWord
    ensures { result ≡ half_bits x }
{
    HalfWord::new(x)
}

// The word that two halves make.
pub fn join(upper: HalfWord, lower: HalfWord) -> Word
    ensures value { result ≡ joined upper lower }
    ensures upper { upper_half result ≡ upper }
    ensures lower { lower_half result ≡ lower }
{
    Word::new((upper.get() << 15) + lower.get())
}

impl Word {
    // Bits 29 to 15.
    pub fn upper_half(self) -> HalfWord
        ensures { result ≡ upper_half self }
    {
        HalfWord::new(self.get() >> 15)
    }

    // Bits 14 to 0.
    pub fn lower_half(self) -> HalfWord
        ensures { result ≡ lower_half self }
    {
        HalfWord::new(self.get())
    }
}

impl HalfWord {
    // The word that has zeros above it.
    pub fn with_zeros(self) -> Word
        ensures { result ≡ self }
    {
        join(HalfWord::new(0), self)
    }
}
