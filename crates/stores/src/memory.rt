// A memory: the numbers that lie under a store. Numbers that belong to no cell are never used.
// Between u32 and usize it goes by `as`, which is proved to lose nothing: there is no From, and a TryFrom would add a failure that cannot be.
ghost use Rattle.std.specs.Prelude.{◌≡◌, ℕ, Some, IfNone, ◌+◌, ◌*◌, ◌/◌, ◌<◌, ◌≤◌, min, List, length, slice_get, slice_set};
ghost use Rattle.std.specs.Vec.{SameBlock};
ghost use Rattle.store.specs.Cells.{Cell, most_cells};
ghost use Rattle.store.specs.Functions.{Finds};
ghost use Rattle.stores.specs.Memory.{numbers};

use std::mem;
use store::{CellAddress, Fault, MOST_CELLS};

// A number of a memory, by what such numbers mean together.
pub trait Number: Copy + Drop {
    // how many of them hold a cell
    const PER_CELL: usize;

    ghost PER_CELL: { ℕ };

    // the row of cells that numbers mean, and the same row after number i became another
    ghost cells: { List Self → List Cell };

    ghost replaced: { List Cell → ℕ → Self → List Cell };

    ghost some: { 0 < PER_CELL };

    ghost counts: { (xs : List Self) → length (cells xs) ≡ min (length xs / PER_CELL) most_cells };

    ghost replaces: { (xs : List Self) (i : ℕ) (x : Self) → cells (slice_set xs i x) ≡ replaced (cells xs) i x };
}

// A store over numbers. It has no Model: as a list of numbers it could not promise that the very vector is handed back.
#[derive(Drop)]
pub struct Memory<N> {
    numbers: Vec<N>,
}

impl<N: Number> Memory<N> {
    // The store over these numbers, whatever they are.
    pub fn new(numbers: Vec<N>) -> Self
        ensures { result.numbers ≡ numbers }
    {
        Memory { numbers }
    }

    // The numbers again.
    pub fn into_memory(self) -> Vec<N>
        ensures { result ≡ self.numbers }
    {
        let Memory { numbers } = self;
        numbers
    }

    // Sets a number of the memory and answers the former one, or nothing where the memory has no such number.
    pub fn replace_number(&mut self, index: u32, number: N) -> Option<N>
        ensures answer { result ≡ slice_get (numbers self.old) index }
        ensures memory { numbers self.new ≡ slice_set (numbers self.old) index number }
        ensures row { N.cells (numbers self.new) ≡ N.replaced (N.cells (numbers self.old)) index number }
        ensures block { SameBlock self.old.numbers self.new.numbers }
        ensures refused { IfNone result (self.new ≡ self.old) }
    {
        let former = self.numbers.get_mut(index as usize)?;
        Some(mem::replace(former, number))
    }

    // Sets a number that the memory has.
    pub(crate) fn write(&mut self, index: usize, number: N)
        requires { index < length (numbers self.old) }
        ensures memory { numbers self.new ≡ slice_set (numbers self.old) index number }
        ensures row { N.cells (numbers self.new) ≡ N.replaced (N.cells (numbers self.old)) index number }
        ensures block { SameBlock self.old.numbers self.new.numbers }
    {
        self.numbers[index] = number;
    }

    // A number that the memory has.
    pub(crate) fn number(&self, index: usize) -> N
        requires { index < length (numbers self.now) }
        ensures { slice_get (numbers self.now) index ≡ Some result }
    {
        self.numbers[index]
    }

    // The number of cells.
    pub(crate) fn cell_count(&self) -> u32
        ensures row { result ≡ length (N.cells (numbers self.now)) }
        ensures memory { result ≡ min (length (numbers self.now) / N.PER_CELL) most_cells }
    {
        (self.numbers.len() / N::PER_CELL).min(MOST_CELLS as usize) as u32
    }

    // Where the numbers of a cell begin, if there is such a cell.
    pub(crate) fn index_of(&self, address: CellAddress) -> Result<usize, Fault>
        ensures { Finds (N.cells (numbers self.now)) address.0 (λ i. (i ≡ address.0 * N.PER_CELL) × (i + N.PER_CELL ≤ length (numbers self.now))) result }
    {
        if address.0 >= self.cell_count() {
            return Err(Fault::NoCell);
        }
        Ok(address.0 as usize * N::PER_CELL)
    }
}
