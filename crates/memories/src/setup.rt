// What was made by a layout: a store over one memory or two, which can be damaged number by number.
ghost use Rattle.std.specs.Prelude.{◌≡◌, is_ok, IfOk, if◌then◌else◌};
ghost use Rattle.store.specs.Operations.{replied, left};
ghost use Rattle.memories.specs.Any.{memories_of, row_of};
ghost use Rattle.memories.specs.Setup.{new_memories, left_in, can_damage, damaged};

use crate::any::AnyStore;
use crate::bank::{Bank, OutOfRange};
use crate::layout::Layout;
use pairs::{Pair, Side};
use std::alloc::{AllocError, Global};
use std::marker::Model;
use store::{Operation, Reply, perform};

#[derive(Drop)]
pub struct Setup {
    store: AnyStore,
}

impl Model for Setup {
    ghost use Rattle.memories.specs.Any.{Memories, memories_of};

    ghost Value = { Memories };

    ghost view = { λ s. memories_of s.store };
}

impl Setup {
    // New memories, with every half a good zero.
    pub fn new(heap: Global, layout: Layout) -> Result<Setup, AllocError>
        ensures { IfOk result (λ s. s ≡ new_memories layout) }
    {
        let store = match layout {
            Layout::Single(part) => AnyStore::Single(Bank::new(heap, part)?),
            Layout::Pair {
                rule,
                first,
                second,
            } => AnyStore::Pair(Pair {
                rule,
                first: Bank::new(heap, first)?,
                second: Bank::new(heap, second)?,
            }),
        };
        Ok(Setup { store })
    }

    // The store itself.
    pub fn into_store(self) -> AnyStore
        ensures { memories_of result ≡ self }
    {
        let Setup { store } = self;
        store
    }

    // Does a function of the store.
    pub fn perform(&mut self, operation: Operation) -> Reply
        ensures answer { result ≡ replied (row_of self.old) operation }
        ensures after { self.new ≡ left_in self.old operation }
        ensures row { row_of self.new ≡ left (row_of self.old) operation }
    {
        perform(&mut self.store, operation)
    }

    // Damages the memory from outside: makes one of its numbers another.
    pub fn replace_number(&mut self, side: Side, index: u32, value: u32) -> Result<(), OutOfRange>
        ensures answer { is_ok result ≡ can_damage self.old side index value }
        ensures after { self.new ≡ (if is_ok result then damaged self.old side index value else self.old) }
    {
        match (&mut self.store, side) {
            (AnyStore::Single(bank), Side::First) => bank.replace_number(index, value),
            (AnyStore::Single(_), Side::Second) => Err(OutOfRange),
            (AnyStore::Pair(pair), Side::First) => pair.first.replace_number(index, value),
            (AnyStore::Pair(pair), Side::Second) => pair.second.replace_number(index, value),
        }
    }
}
