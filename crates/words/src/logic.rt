// Logic on the bits of words, and comparisons under a mask.
ghost use Rattle.std.specs.Prelude.{◌≡◌};
ghost use Rattle.words.specs.Logic.{product, selective_set, selective_complement, selective_clear, selective_substitute, has_odd_ones, equal_under, less_under};

use super::Word;

impl Word {
    // The bits of this word where the other has ones, and zeros elsewhere.
    #[tactic(auto, using(crate::proofs::Selected::product_is, crate::proofs::Selected::product_commutes))]
    pub fn product(self, v: Word) -> Word
        ensures value { result ≡ product self v }
        ensures commutes { result ≡ product v self }
    {
        Word::new(self.get() & v.get())
    }

    // This word, but with ones where the other has ones.
    #[tactic(auto, using(crate::proofs::Selected::selective_set_is))]
    pub fn selective_set(self, y: Word) -> Word
        ensures { result ≡ selective_set self y }
    {
        Word::new(self.get() | y.get())
    }

    // This word, but with its bits turned over where the other has ones.
    #[tactic(auto, using(crate::proofs::Selected::selective_complement_is))]
    pub fn selective_complement(self, y: Word) -> Word
        ensures { result ≡ selective_complement self y }
    {
        Word::new(self.get() ^ y.get())
    }

    // This word, but with zeros where the other has ones.
    #[tactic(auto, using(crate::proofs::Selected::selective_clear_is))]
    pub fn selective_clear(self, y: Word) -> Word
        ensures { result ≡ selective_clear self y }
    {
        Word::new(self.get() & !y.get())
    }

    // This word, but with the bits of another where the mask has ones.
    #[tactic(auto, using(crate::proofs::Selected::selective_substitute_is))]
    pub fn selective_substitute(self, mask: Word, y: Word) -> Word
        ensures { result ≡ selective_substitute self mask y }
    {
        Word::new((y.get() & mask.get()) | (self.get() & !mask.get()))
    }

    // Is the number of ones odd?
    #[tactic(auto, using(crate::proofs::Counted::all_ones), unfolding(crate::specs::Logic::has_odd_ones))]
    pub fn has_odd_ones(self) -> bool
        ensures { result ≡ has_odd_ones self }
    {
        self.get().count_ones() % 2 == 1
    }

    // Are the two words the same where the mask has ones?
    #[tactic(auto, unfolding(crate::specs::Logic::equal_under))]
    pub fn equals_under(self, mask: Word, other: Word) -> bool
        ensures { result ≡ equal_under mask self other }
    {
        self.product(mask) == other.product(mask)
    }

    // Is this word, with zeros where the mask has zeros, the smaller number of the two?
    #[tactic(auto, unfolding(crate::specs::Logic::less_under))]
    pub fn is_less_under(self, mask: Word, other: Word) -> bool
        ensures { result ≡ less_under mask self other }
    {
        self.product(mask).get() < other.product(mask).get()
    }
}
