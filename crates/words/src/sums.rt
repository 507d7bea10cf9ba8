// Sums and differences of words.
ghost use Rattle.std.specs.Prelude.{◌≡◌, ◌<◌, ◌^◌, ◌↔◌, ◌==◌, ◌+ℤ◌, ◌-ℤ◌, nat_abs, if◌then◌else◌};
ghost use Rattle.words.specs.Sums.{complement, difference, integer_of, minus_zero, sum};

use super::Word;

// Thirty ones, 2^30 − 1: as a word, −0.
const ONES: u32 = 0o7777777777;

impl Word {
    // This word less another. Only −0 less +0 is −0.
    #[tactic(auto, unfolding(crate::specs::Sums::difference))]
    pub fn difference(self, v: Word) -> Word
        ensures value { result ≡ difference self v }
        ensures itself { v ≡ self → result ≡ 0 }
        ensures minus_zero { (result ≡ minus_zero) ↔ ((self ≡ minus_zero) × (v ≡ 0)) }
        ensures integers { nat_abs (integer_of 30 self -ℤ integer_of 30 v) < 2 ^ 29 → integer_of 30 result ≡ integer_of 30 self -ℤ integer_of 30 v }
    {
        let (u, v) = (self.get(), v.get());
        Word::new(if u < v { u + ONES - v } else { u - v })
    }

    // This word and another, in either order. −0 added leaves every word, +0 every one but −0; a word and its complement are +0; only −0 and −0 are −0.
    #[tactic(auto, unfolding(crate::specs::Sums::sum, crate::specs::Sums::difference))]
    pub fn sum(self, v: Word) -> Word
        ensures value { result ≡ sum self v }
        ensures commutes { result ≡ sum v self }
        ensures neutral { v ≡ minus_zero → result ≡ self }
        ensures plus_zero { v ≡ 0 → result ≡ (if self == minus_zero then 0 else self) }
        ensures opposite { v ≡ complement 30 self → result ≡ 0 }
        ensures minus_zero { (result ≡ minus_zero) ↔ ((self ≡ minus_zero) × (v ≡ minus_zero)) }
        ensures integers { nat_abs (integer_of 30 self +ℤ integer_of 30 v) < 2 ^ 29 → integer_of 30 result ≡ integer_of 30 self +ℤ integer_of 30 v }
    {
        self.difference(v.complement())
    }
}
