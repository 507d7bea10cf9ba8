// The arguments of a question, read one after another.
ghost use Rattle.std.specs.Prelude.{◌≤◌};

use std::str::SplitWhitespace;
use words::{DoubleWord, HalfWord, Word, half_bits, word_bits};

// What is not read yet.
#[derive(Drop)]
pub(crate) struct Arguments<'a> {
    rest: SplitWhitespace<'a>,
}

impl<'a> Arguments<'a> {
    pub(crate) fn new(rest: SplitWhitespace<'a>) -> Arguments<'a> {
        Arguments { rest }
    }

    fn number(&mut self, base: u32) -> Option<u32>
        requires least { 2 ≤ base }
        requires most { base ≤ 36 }
    {
        u32::from_str_radix(self.rest.next()?, base).ok()
    }

    pub(crate) fn word(&mut self) -> Option<Word> {
        Some(word_bits(self.number(8)?))
    }

    pub(crate) fn half(&mut self) -> Option<HalfWord> {
        Some(half_bits(self.number(8)?))
    }

    // Two words.
    pub(crate) fn double(&mut self) -> Option<DoubleWord> {
        Some(self.word()?.over(self.word()?))
    }

    pub(crate) fn count(&mut self) -> Option<u32> {
        self.number(10)
    }

    pub(crate) fn words(&mut self) -> Option<[Word; 5]> {
        Some([
            self.word()?,
            self.word()?,
            self.word()?,
            self.word()?,
            self.word()?,
        ])
    }

    // Are all of them read?
    pub(crate) fn are_read(&mut self) -> bool {
        self.rest.next().is_none()
    }
}
