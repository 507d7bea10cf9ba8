// One memory under a store, by its kind.
ghost use Rattle.std.specs.Prelude.{◌≡◌, is_ok, IfOk, if◌then◌else◌};
ghost use Rattle.memories.specs.Bank.{memory_of, bank_row, memory_with_word, memory_with_half, new_memory, takes, memory_with_number};
ghost use Rattle.memories.specs.Laws.{bank_bounded, bank_ranged};

use crate::layout::{Kind, Part};
use std::alloc::{AllocError, Global};
use store::{CellAddress, Fault, Half, Store};
use stores::{ParityStore, WordStore};
use words::Word;

// There is no such number in the memory, or the value is too wide for it. It has no Display: nobody prints it.
#[derive(Clone, Copy, Debug, PartialEq, Eq)]
pub struct OutOfRange;

// Not a general `Either`: the names of the variants say of which kind the memory is.
#[derive(Drop)]
pub enum Bank {
    Word(WordStore),
    Parity(ParityStore),
}

impl Bank {
    // A new memory, with every half a good zero.
    pub(crate) fn new(heap: Global, part: Part) -> Result<Bank, AllocError>
        ensures { IfOk result (λ b. memory_of b ≡ new_memory part) }
    {
        // By `as`: a u32 has no From into a usize.
        let size = part.size as usize;
        match part.kind {
            Kind::Word => Ok(Bank::Word(WordStore::new(vec![in heap; 0; size]?))),
            Kind::Parity => Ok(Bank::Parity(ParityStore::new(vec![in heap; 0x8000; size]?))),
        }
    }

    // Makes one of its numbers another.
    pub(crate) fn replace_number(&mut self, index: u32, value: u32) -> Result<(), OutOfRange>
        ensures answer { is_ok result ≡ takes (memory_of self.old) index value }
        ensures after { memory_of self.new ≡ (if is_ok result then memory_with_number index value (memory_of self.old) else memory_of self.old) }
    {
        match self {
            Bank::Word(memory) => {
                memory.replace_number(index, value).ok_or(OutOfRange)?;
            }
            Bank::Parity(memory) => {
                let value = u16::try_from(value).map_err(|_| OutOfRange)?;
                memory.replace_number(index, value).ok_or(OutOfRange)?;
            }
        }
        Ok(())
    }
}

impl Store for Bank {
    ghost cells = { bank_row };

    ghost puts_whole = { λ before a w after. memory_of after ≡ memory_with_word w (memory_of before) a };

    ghost puts_half = { λ before a h v after. memory_of after ≡ memory_with_half h v (memory_of before) a };

    ghost bounded = { bank_bounded };

    ghost ranged = { bank_ranged };

    fn count(&self) -> u32 {
        match self {
            Bank::Word(memory) => memory.count(),
            Bank::Parity(memory) => memory.count(),
        }
    }

    fn fetch(&self, address: CellAddress) -> Result<Word, Fault> {
        match self {
            Bank::Word(memory) => memory.fetch(address),
            Bank::Parity(memory) => memory.fetch(address),
        }
    }

    fn put_whole(&mut self, address: CellAddress, word: u32) -> Result<(), Fault> {
        match self {
            Bank::Word(memory) => memory.put_whole(address, word),
            Bank::Parity(memory) => memory.put_whole(address, word),
        }
    }

    fn put_half(&mut self, address: CellAddress, half: Half, value: u32) -> Result<(), Fault> {
        match self {
            Bank::Word(memory) => memory.put_half(address, half, value),
            Bank::Parity(memory) => memory.put_half(address, half, value),
        }
    }
}
