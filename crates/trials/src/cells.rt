// Cells with their marks, and rows of them.
ghost use Rattle.std.specs.Prelude.{◌<◌, ◌≤◌};

use super::programs::{jump_back, program_word};
use super::random::Random;
use words::{HalfWord, word_bits};

// A half of a cell. A spoiled one has a value too.
#[derive(Clone, Copy, Debug, PartialEq, Eq)]
pub(crate) struct HalfCell {
    pub(crate) value: HalfWord,
    pub(crate) is_good: bool,
}

#[derive(Clone, Copy, Debug, PartialEq, Eq)]
pub(crate) struct Cell {
    pub(crate) upper: HalfCell,
    pub(crate) lower: HalfCell,
}

impl Cell {
    // A word, now and then with a spoiled half.
    fn holding(random: &mut Random, word: u32) -> Cell {
        let word = word_bits(word);
        Cell {
            upper: HalfCell {
                value: word.upper_half(),
                is_good: !random.once_in(100),
            },
            lower: HalfCell {
                value: word.lower_half(),
                is_good: !random.once_in(100),
            },
        }
    }

    // A word of a program of so many words.
    pub(crate) fn of_program(random: &mut Random, length: u32) -> Cell
        requires some { 0 < length }
        requires few { length ≤ 32768 }
    {
        let word = program_word(random, length);
        Cell::holding(random, word)
    }

    // The last word of such a program, from which it mostly goes on within.
    pub(crate) fn last_of_program(random: &mut Random, length: u32) -> Cell
        requires some { 0 < length }
        requires few { length ≤ 32768 }
    {
        let word = jump_back(random, length);
        Cell::holding(random, word)
    }
}
