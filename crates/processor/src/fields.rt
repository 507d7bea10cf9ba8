// An instruction: a word, seen as its fields.
ghost use Rattle.std.specs.Prelude.{◌≡◌};
ghost use Rattle.processor.specs.Fields.{fields_of};

use std::marker::Model;
use words::{HalfWord, Word};

#[derive(Drop)]
pub(crate) struct Instruction {
    word: Word,
}

impl Model for Instruction {
    ghost use Rattle.processor.specs.Fields.{Fields, fields_of};

    ghost Value = { Fields };

    ghost view = { λ i. fields_of i.word };
}

impl Instruction {
    pub(crate) fn of(word: Word) -> Instruction
        ensures { result ≡ fields_of word }
    {
        Instruction { word }
    }

    // The function code.
    pub(crate) fn f(&self) -> u8
        ensures { result ≡ self.now.f }
    {
        (self.word.get() >> 24) as u8
    }

    pub(crate) fn j(&self) -> u8
        ensures { result ≡ self.now.j }
    {
        ((self.word.get() >> 21) % 8) as u8
    }

    pub(crate) fn k(&self) -> u8
        ensures { result ≡ self.now.k }
    {
        ((self.word.get() >> 18) % 8) as u8
    }

    // The number of an index register.
    pub(crate) fn b(&self) -> u8
        ensures { result ≡ self.now.b }
    {
        ((self.word.get() >> 15) % 8) as u8
    }

    // The address.
    pub(crate) fn y(&self) -> HalfWord
        ensures { result ≡ self.now.y }
    {
        self.word.lower_half()
    }
}
