// The parity store: a cell is two 16-bit numbers, the upper half first. An odd last number and numbers past 131,072 cells belong to no cell.
ghost use Rattle.std.specs.Prelude.{◌≡◌, ◌<◌, length, is_ok, OnErr, if◌then◌else◌};
ghost use Rattle.std.proofs.Common.{arith};
ghost use Rattle.std.specs.Vec.{SameBlock};
ghost use Rattle.store.specs.Cells.{cell_at, part};
ghost use Rattle.store.specs.Functions.{put_whole_answer, half_put, Finds};
ghost use Rattle.stores.specs.Memory.{numbers};
ghost use Rattle.stores.specs.Parity.{half_of, row, row_of, cell_count, half_written, whole_written, index_of, number_replaced};
ghost use Rattle.stores.specs.ParityRow.{length_row, row_bounded, row_fits, row_replaced};

use super::memory::{Memory, Number};
use super::{halves, sixteen};
use store::{CellAddress, Fault, Half, Store};
use words::{Word, word_bits};

pub type ParityStore = Memory<u16>;

impl Number for u16 {
    const PER_CELL: usize = 2;

    ghost PER_CELL = { 2 };

    ghost cells = { row_of };

    ghost replaced = { number_replaced };

    ghost some = { Prim.omega arith };

    ghost counts = { length_row };

    ghost replaces = { row_replaced };
}

// A cell and one of its halves stay two arguments here, since the store's put half takes them apart.
impl ParityStore {
    // Where the number of a half stands in the memory.
    fn half_index(&self, address: CellAddress, half: Half) -> Result<usize, Fault>
        ensures { Finds (row self.now) address.0 (λ i. (i ≡ index_of address.0 half) × (i < length (numbers self.now))) result }
    {
        let first = self.index_of(address)?;
        match half {
            Half::Upper => Ok(first),
            Half::Lower => Ok(first + 1),
        }
    }

    // The number of a half.
    fn half_number(&self, address: CellAddress, half: Half) -> Result<u16, Fault>
        ensures { Finds (row self.now) address.0 (λ x. half_of x ≡ part (cell_at (row self.now) address.0) half) result }
    {
        Ok(self.number(self.half_index(address, half)?))
    }

    // Sets the number of a half to the one that holds these bits, marked good. The number beside is not looked at.
    fn set_half(&mut self, address: CellAddress, half: Half, value: u32) -> Result<(), Fault>
        ensures answer { result ≡ put_whole_answer (row self.old) address.0 }
        ensures after { row self.new ≡ (if is_ok result then half_put (row self.old) address.0 half value else row self.old) }
        ensures memory { numbers self.new ≡ (if is_ok result then half_written (numbers self.old) address.0 half value else numbers self.old) }
        ensures refused { OnErr result (self.new ≡ self.old) }
        ensures block { SameBlock self.old.numbers self.new.numbers }
    {
        let index = self.half_index(address, half)?;
        self.write(index, sixteen::half_number(value));
        Ok(())
    }
}

impl Store for ParityStore {
    ghost cells = { row };

    ghost puts_whole = { λ s a w t. (numbers t ≡ whole_written (numbers s) a w) × SameBlock s.numbers t.numbers };

    ghost puts_half = { λ s a h v t. (numbers t ≡ half_written (numbers s) a h v) × SameBlock s.numbers t.numbers };

    ghost bounded = { λ s. row_bounded (numbers s) };

    ghost ranged = { λ s a within. row_fits (numbers s) a within };

    fn count(&self) -> u32
        ensures row { result ≡ length (row self.now) }
        ensures memory { result ≡ cell_count (numbers self.now) }
    {
        self.cell_count()
    }

    fn fetch(&self, address: CellAddress) -> Result<Word, Fault> {
        let upper = self.half_number(address, Half::Upper)?;
        let lower = self.half_number(address, Half::Lower)?;
        halves::word(sixteen::good_half(upper), sixteen::good_half(lower))
    }

    fn put_whole(&mut self, address: CellAddress, word: u32) -> Result<(), Fault> {
        let word = word_bits(word);
        self.set_half(address, Half::Upper, word.upper_half().get())?;
        self.set_half(address, Half::Lower, word.lower_half().get())
    }

    fn put_half(&mut self, address: CellAddress, half: Half, value: u32) -> Result<(), Fault> {
        let other = half.other();
        let beside = self.half_number(address, other)?;
        sixteen::good_half(beside).ok_or(Fault::Spoiled(other))?;
        self.set_half(address, half, value)
    }
}
