// The word store: a cell is one 32-bit number. Numbers past the first 131,072 are never used.
ghost use Rattle.std.specs.Prelude.{◌≡◌, length, is_ok, OnErr, if◌then◌else◌, slice_index, slice_set};
ghost use Rattle.std.proofs.Common.{arith};
ghost use Rattle.words.specs.Words.{word_bits};
ghost use Rattle.std.specs.Vec.{SameBlock};
ghost use Rattle.store.specs.Cells.{cell_at};
ghost use Rattle.store.specs.Functions.{put_whole_answer, Finds};
ghost use Rattle.stores.specs.Memory.{numbers};
ghost use Rattle.stores.specs.Word.{cell_of, cell_count, row, row_of, half_written, number_replaced};
ghost use Rattle.stores.specs.WordRow.{length_row_by_one, row_bounded, row_fits, row_replaced};

use super::memory::{Memory, Number};
use super::number;
use store::{CellAddress, Fault, Half, Store};
use words::{Word, word_bits};

pub type WordStore = Memory<u32>;

impl Number for u32 {
    const PER_CELL: usize = 1;

    ghost PER_CELL = { 1 };

    ghost cells = { row_of };

    ghost replaced = { number_replaced };

    ghost some = { Prim.omega arith };

    ghost counts = { length_row_by_one };

    ghost replaces = { row_replaced };
}

impl WordStore {
    // The number of a cell.
    fn cell_number(&self, address: CellAddress) -> Result<u32, Fault>
        ensures { Finds (row self.now) address.0 (λ x. (cell_of x ≡ cell_at (row self.now) address.0) × (x ≡ slice_index (numbers self.now) address.0)) result }
    {
        Ok(self.number(self.index_of(address)?))
    }

    // Sets the number of a cell.
    fn set_cell_number(&mut self, address: CellAddress, number: u32) -> Result<(), Fault>
        ensures answer { result ≡ put_whole_answer (row self.old) address.0 }
        ensures after { row self.new ≡ (if is_ok result then slice_set (row self.old) address.0 (cell_of number) else row self.old) }
        ensures memory { numbers self.new ≡ (if is_ok result then slice_set (numbers self.old) address.0 number else numbers self.old) }
        ensures refused { OnErr result (self.new ≡ self.old) }
        ensures block { SameBlock self.old.numbers self.new.numbers }
    {
        let index = self.index_of(address)?;
        self.write(index, number);
        Ok(())
    }
}

impl Store for WordStore {
    ghost cells = { row };

    ghost puts_whole = { λ s a w t. (numbers t ≡ slice_set (numbers s) a (word_bits w)) × SameBlock s.numbers t.numbers };

    ghost puts_half = { λ s a h v t. (numbers t ≡ slice_set (numbers s) a (half_written (slice_index (numbers s) a) h v)) × SameBlock s.numbers t.numbers };

    ghost bounded = { λ s. row_bounded (numbers s) };

    ghost ranged = { λ s a within. row_fits (numbers s) a within };

    fn count(&self) -> u32
        ensures row { result ≡ length (row self.now) }
        ensures memory { result ≡ cell_count (numbers self.now) }
    {
        self.cell_count()
    }

    fn fetch(&self, address: CellAddress) -> Result<Word, Fault> {
        number::word(self.cell_number(address)?)
    }

    fn put_whole(&mut self, address: CellAddress, word: u32) -> Result<(), Fault> {
        self.set_cell_number(address, word_bits(word).get())
    }

    fn put_half(&mut self, address: CellAddress, half: Half, value: u32) -> Result<(), Fault> {
        let number = number::put_half(self.cell_number(address)?, half, value)?;
        self.set_cell_number(address, number.get())
    }
}
