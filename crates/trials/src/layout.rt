// A store with a worker's words in it, and other words around them.
ghost use Rattle.std.specs.Prelude.{◌≡◌, ◌<◌, ◌≤◌, ◌+◌};

use super::cells::Cell;
use super::kinds::Kind;
use super::memory::Plan;
use super::random::Random;
use std::alloc::{AllocError, Global};

// So many words as a neighbour is taken to have.
pub(crate) const NEIGHBOUR: u32 = 12;

// Where a worker lies in a store of so many cells, and as what that store is made.
#[derive(Clone, Copy, Debug, PartialEq, Eq)]
pub(crate) struct Layout {
    pub(crate) kind: Kind,
    pub(crate) size: u32,
    pub(crate) seam: u32,
    pub(crate) lower: u32,
    pub(crate) length: u32,
    ghost some: { 0 < length },
    ghost room: { lower + length < size },
    ghost wide: { length + 8 ≤ size },
    ghost few: { size ≤ 256 },
}

impl Layout {
    // A layout for a worker with so many words, with room beside it.
    pub(crate) fn any(random: &mut Random, length: u32) -> Layout
        requires some { 0 < length }
        requires few { length ≤ 32 }
        ensures { result.length ≡ length }
    {
        let size = 4 * (10 + random.below(40));
        Layout {
            kind: Kind::any(random),
            size,
            seam: 2 * random.below(size / 2),
            lower: random.below(size - length),
            length,
        }
    }

    // How a store of its kind has its cells.
    pub(crate) fn plan(self) -> Plan {
        self.kind.plan(self.seam)
    }

    // The same layout, with the worker one cell further on or back if it begins at this cell.
    pub(crate) fn apart_from(self, lower: u32) -> Layout
        ensures { result.length ≡ self.length }
    {
        let mut layout = self;
        if layout.lower == lower {
            layout.lower = if lower == 0 { 1 } else { lower - 1 };
        }
        layout
    }

    // The row of cells: these words are the worker's.
    pub(crate) fn row(
        self,
        heap: Global,
        random: &mut Random,
        words: &[Cell],
    ) -> Result<Vec<Cell>, AllocError> {
        let mut row = Vec::new(heap);
        for _ in 0..self.lower {
            row.push(Cell::of_program(random, NEIGHBOUR))?;
        }
        row.extend_from_slice(words)?;
        for _ in self.lower + self.length..self.size {
            row.push(Cell::of_program(random, NEIGHBOUR))?;
        }
        Ok(row)
    }
}
