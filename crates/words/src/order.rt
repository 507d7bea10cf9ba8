// Comparisons of two words with two others.
ghost use Rattle.std.specs.Prelude.{◌≡◌, ◌≢◌, ℕ, ◌^◌, ◌<◌, ◌==◌, true, false, not};
ghost use Rattle.words.specs.Order.{less};

use super::DoubleWord;

// Bit 59.
const SIGN: u64 = 1 << 59;

impl DoubleWord {
    // Are all 60 bits the same?
    pub fn equals(self, other: DoubleWord) -> bool
        ensures { result ≡ (self == other) }
    {
        self.get() == other.get()
    }

    // Is this number below the other, by their values? With both sign bits turned over, the plain order of the numbers is this one.
    #[tactic(auto, using(crate::proofs::Ordered::less_is, crate::proofs::Ordered::either_way, crate::proofs::Ordered::between))]
    pub fn is_less(self, other: DoubleWord) -> bool
        ensures value { result ≡ less self other }
        ensures itself { other ≡ self → result ≡ false }
        ensures between { (z : ℕ) → z < 2 ^ 60 → less self other ≡ true → less other z ≡ true → less self z ≡ true }
        ensures either { self ≢ other → result ≡ not (less other self) }
    {
        (self.get() ^ SIGN) < (other.get() ^ SIGN)
    }
}
