// The scale factor shift.
ghost use Rattle.std.specs.Prelude.{◌≡◌, ℕ, ◌<◌, ◌≤◌, true, false, suc, if◌then◌else◌};
ghost use Rattle.words.specs.Scale.{is_zero, top_bits_agree, scale_factor};
ghost use Rattle.words.specs.Shifts.{turned_left};

use super::Word;

// A word turned to the left until its highest two bits differ, and by how many places.
#[derive(Clone, Copy, Debug, PartialEq, Eq)]
pub struct Scaled {
    pub word: Word,
    pub count: u32,
}

impl Word {
    // Are the highest two bits the same?
    fn top_bits_agree(self) -> bool
        ensures { result ≡ top_bits_agree self }
    {
        (self.get() >> 29) % 2 == (self.get() >> 28) % 2
    }

    // How many turns by one place make the highest two bits differ; 28 where none do.
    #[tactic(auto, using(crate::proofs::Scaling::not_turned, crate::proofs::Scaling::turned_on, crate::proofs::Scaling::turned_enough, crate::proofs::Scaling::turned_all))]
    fn scale_factor(self) -> u32
        ensures { result ≡ scale_factor self }
    {
        let mut word = self;
        for count in 0..28 {
            if !word.top_bits_agree() {
                return count;
            }
            word = word.turned_left(1);
        }
        28
    }

    // Turns the word to the left until its highest two bits differ, and by no place more; one whose bits are all the same it leaves, and counts 28.
    #[tactic(auto, using(crate::proofs::Scaling::rule, crate::proofs::Scaling::at_most_28, crate::proofs::Scaling::zero_left, crate::proofs::Scaling::agree_before_that, crate::proofs::Scaling::differ_then))]
    pub fn scaled(self) -> Scaled
        ensures count { result.count ≡ scale_factor self }
        ensures word { result.word ≡ turned_left 30 self result.count }
        ensures most { result.count ≤ 28 }
        ensures zero { is_zero self ≡ true → (result.word ≡ self) × (result.count ≡ 28) }
        ensures agree { (k : ℕ) → k < result.count → top_bits_agree (turned_left 30 self k) ≡ true }
        ensures differ { is_zero self ≡ false → top_bits_agree result.word ≡ false }
        ensures rule { scale_factor self ≡ (if is_zero self then 28 else (if top_bits_agree self then suc (scale_factor (turned_left 30 self 1)) else 0)) }
    {
        let count = self.scale_factor();
        Scaled {
            word: self.turned_left(count),
            count,
        }
    }
}
