// A put and then a fetch, over any store: what a memory test does to a cell, and what every client of a store may count on.
ghost use Rattle.std.specs.Prelude.{◌≡◌, ℕ, length, is_ok, OnOk, OnErr, if◌then◌else◌, Ok, Err, ◌≢◌, nat_lt};
ghost use Rattle.words.specs.Words.{word_bits};
ghost use Rattle.store.specs.Cells.{cell_at, with_half};
ghost use Rattle.store.specs.declared.fault.Fault.TheVariants.{NoCell};
ghost use Rattle.store.specs.Functions.{fetched, word_of, whole_put, half_put};

use super::{CellAddress, Fault, Half, Store};
use words::Word;

// Puts a word and fetches it again: the cell has the word's 30 bits, and every other cell what it had.
pub fn probe_whole<S: Store>(store: &mut S, address: CellAddress, word: u32) -> Result<Word, Fault>
    ensures answer { result ≡ (if nat_lt address.0 (length (S.cells store.old)) then Ok (word_bits word) else Err NoCell) }
    ensures after { S.cells store.new ≡ (if is_ok result then whole_put (S.cells store.old) address.0 word else S.cells store.old) }
    ensures same_cell { fetched (S.cells store.new) address.0 ≡ result }
    ensures other_cells { (a : ℕ) → (a ≢ address.0) → fetched (S.cells store.new) a ≡ fetched (S.cells store.old) a }
    ensures count { length (S.cells store.new) ≡ length (S.cells store.old) }
    ensures taken { OnOk result (S.puts_whole store.old address.0 word store.new) }
    ensures refused { OnErr result (store.new ≡ store.old) }
{
    store.put_whole(address, word)?;
    store.fetch(address)
}

// Puts a half and fetches the word: the new half beside the old one, or the fault of the half that was not put.
pub fn probe_half<S: Store>(
    store: &mut S,
    address: CellAddress,
    half: Half,
    value: u32,
) -> Result<Word, Fault>
    ensures answer { result ≡ (if nat_lt address.0 (length (S.cells store.old)) then word_of (with_half (cell_at (S.cells store.old) address.0) half value) else Err NoCell) }
    ensures after { S.cells store.new ≡ (if is_ok result then half_put (S.cells store.old) address.0 half value else S.cells store.old) }
    ensures other_cells { (a : ℕ) → (a ≢ address.0) → fetched (S.cells store.new) a ≡ fetched (S.cells store.old) a }
    ensures count { length (S.cells store.new) ≡ length (S.cells store.old) }
    ensures taken { OnOk result (S.puts_half store.old address.0 half value store.new) }
    ensures refused { OnErr result (store.new ≡ store.old) }
{
    store.put_half(address, half, value)?;
    store.fetch(address)
}
