// One store over any memory that a layout describes.
ghost use Rattle.memories.specs.Any.{any_row, Changes};
ghost use Rattle.memories.specs.Bank.{memory_with_word, memory_with_half};
ghost use Rattle.memories.specs.Laws.{bounded as is_bounded, ranged as is_ranged};

use crate::bank::Bank;
use store::{CellAddress, Fault, Half, Store};
use words::Word;

// Not a general `Either`: the names of the variants say what the store is over.
#[derive(Drop)]
pub enum AnyStore {
    Single(Bank),
    Pair(pairs::Pair<Bank, Bank>),
}

impl Store for AnyStore {
    ghost cells = { any_row };

    ghost puts_whole = { λ before a w after. Changes before a (memory_with_word w) after };

    ghost puts_half = { λ before a h v after. Changes before a (memory_with_half h v) after };

    ghost bounded = { is_bounded };

    ghost ranged = { is_ranged };

    fn count(&self) -> u32 {
        match self {
            AnyStore::Single(bank) => bank.count(),
            AnyStore::Pair(pair) => pair.count(),
        }
    }

    fn fetch(&self, address: CellAddress) -> Result<Word, Fault> {
        match self {
            AnyStore::Single(bank) => bank.fetch(address),
            AnyStore::Pair(pair) => pair.fetch(address),
        }
    }

    fn put_whole(&mut self, address: CellAddress, word: u32) -> Result<(), Fault> {
        match self {
            AnyStore::Single(bank) => bank.put_whole(address, word),
            AnyStore::Pair(pair) => pair.put_whole(address, word),
        }
    }

    fn put_half(&mut self, address: CellAddress, half: Half, value: u32) -> Result<(), Fault> {
        match self {
            AnyStore::Single(bank) => bank.put_half(address, half, value),
            AnyStore::Pair(pair) => pair.put_half(address, half, value),
        }
    }
}
