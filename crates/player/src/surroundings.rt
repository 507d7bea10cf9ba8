// The cells before and after a worker's words.
use super::cell::{Cell, HalfCell};
use std::alloc::{AllocError, Global};
use words::half_bits;

// How many there are before, which is the worker's lower limit, and how many after, and the number from which all of them are made.
#[derive(Clone, Copy)]
pub(crate) struct Surroundings {
    pub(crate) before: u32,
    pub(crate) after: u32,
    pub(crate) seed: u32,
}

impl Surroundings {
    fn half(self, number: u32) -> HalfCell {
        HalfCell {
            value: half_bits(number.wrapping_mul(self.seed)),
            is_good: number % 3 != 0,
        }
    }

    // One of these cells, some of which have spoiled halves.
    fn cell(self, number: u32) -> Cell {
        Cell {
            upper: self.half(number.wrapping_mul(2)),
            lower: self.half(number.wrapping_mul(2).wrapping_add(1)),
        }
    }

    // The row that a worker's words and these cells make.
    pub(crate) fn around(self, heap: Global, words: &[Cell]) -> Result<Vec<Cell>, AllocError> {
        let mut row = Vec::new(heap);
        for number in 0..self.before {
            row.push(self.cell(number))?;
        }
        row.extend_from_slice(words)?;
        for number in 0..self.after {
            row.push(self.cell(number.wrapping_add(self.before)))?;
        }
        Ok(row)
    }

    // Is a row the one that these words and these cells make?
    pub(crate) fn are_around(
        self,
        heap: Global,
        row: &[Cell],
        words: &[Cell],
    ) -> Result<bool, AllocError> {
        let expected = self.around(heap, words)?;
        Ok(row == expected.as_slice())
    }

    // As many other cells.
    pub(crate) fn others(self) -> Surroundings {
        Surroundings {
            seed: self.seed.wrapping_add(2),
            ..self
        }
    }
}
