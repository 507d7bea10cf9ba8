// Halves as words.
ghost use Rattle.std.specs.Prelude.{◌≡◌};
ghost use Rattle.words.specs.Extension.{extended};
ghost use Rattle.words.specs.Sums.{complement, integer_of};

use super::{HalfWord, Word};

impl HalfWord {
    // The word that has copies of bit 14 above it. It stands for the same integer, and a half's complement becomes its complement.
    #[tactic(auto, using(crate::proofs::Extended::extended_by_zeros, crate::proofs::Extended::extended_by_ones))]
    pub fn extended(self) -> Word
        ensures value { result ≡ extended 15 self }
        ensures integer { integer_of 30 result ≡ integer_of 15 self }
        ensures complement { complement 30 result ≡ extended 15 (complement 15 self) }
    {
        let number = self.get();
        Word::new(if number < 1 << 14 {
            number
        } else {
            0o7777700000 + number
        })
    }
}
