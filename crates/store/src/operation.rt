// The functions of a store as values.
ghost use Rattle.std.specs.Prelude.{◌≡◌};
ghost use Rattle.store.specs.Operations.{replied, left, Does};

use super::{CellAddress, Fault, Half, Store};
use words::Word;

// One of a store's four functions, with its arguments.
#[derive(Clone, Copy, Debug, PartialEq, Eq)]
pub enum Operation {
    Count,
    Fetch(CellAddress),
    PutWhole {
        address: CellAddress,
        word: u32,
    },
    PutHalf {
        address: CellAddress,
        half: Half,
        value: u32,
    },
}

// What such a function answers.
#[derive(Clone, Copy, Debug, PartialEq, Eq)]
pub enum Reply {
    Counted(u32),
    Fetched(Result<Word, Fault>),
    Put(Result<(), Fault>),
}

// Does one function of a store.
pub fn perform<S: Store>(store: &mut S, operation: Operation) -> Reply
    ensures answer { result ≡ replied (S.cells store.old) operation }
    ensures after { S.cells store.new ≡ left (S.cells store.old) operation }
    ensures does { Does S.puts_whole S.puts_half operation result store.old store.new }
{
    match operation {
        Operation::Count => Reply::Counted(store.count()),
        Operation::Fetch(address) => Reply::Fetched(store.fetch(address)),
        Operation::PutWhole { address, word } => Reply::Put(store.put_whole(address, word)),
        Operation::PutHalf {
            address,
            half,
            value,
        } => Reply::Put(store.put_half(address, half, value)),
    }
}
