// A store: a row of at most 131,072 cells with four functions. Code that is generic over a store knows it by this interface alone.
#![tactic(auto)]

ghost use Rattle.std.specs.Prelude.{◌≡◌, ℕ, ⊤, ◌<◌, ◌≤◌, List, length, is_ok, OnOk, OnErr, if◌then◌else◌};
ghost use Rattle.store.specs.Cells.{Cell, CellFits, cell_at, most_cells};
ghost use Rattle.store.specs.Functions.{fetched, put_whole_answer, put_half_answer, whole_put, half_put};

use words::Word;

mod address;
mod fault;
mod half;
mod operation;
mod playing;
mod probe;
mod text;

pub use address::CellAddress;
pub use fault::Fault;
pub use half::Half;
pub use operation::{Operation, Reply, perform};
pub use playing::{play, play_both};
pub use probe::{probe_half, probe_whole};

// The most cells that a store has.
pub const MOST_CELLS: u32 = 131_072;

pub trait Store {
    ghost use Rattle.store.specs.declared.half.Half.{Half};

    // the row of cells that the store means
    ghost cells: { Self → List Cell };

    // what a put that is taken does to the store itself, whatever lies under its row
    ghost puts_whole: { Self → ℕ → ℕ → Self → Type 0 } = { λ _ _ _ _. ⊤ };

    ghost puts_half: { Self → ℕ → Half → ℕ → Self → Type 0 } = { λ _ _ _ _ _. ⊤ };

    // The number of cells.
    fn count(&self) -> u32
        ensures { result ≡ length (cells self.now) };

    // The word of a cell.
    fn fetch(&self, address: CellAddress) -> Result<Word, Fault>
        ensures { result ≡ fetched (cells self.now) address.0 };

    // Sets both halves of a cell, and marks them good.
    fn put_whole(&mut self, address: CellAddress, word: u32) -> Result<(), Fault>
        ensures answer { result ≡ put_whole_answer (cells self.old) address.0 }
        ensures after { cells self.new ≡ (if is_ok result then whole_put (cells self.old) address.0 word else cells self.old) }
        ensures count { length (cells self.new) ≡ length (cells self.old) }
        ensures taken { OnOk result (puts_whole self.old address.0 word self.new) }
        ensures refused { OnErr result (self.new ≡ self.old) };

    // Sets one half of a cell, and marks it good. The other half must be good.
    fn put_half(&mut self, address: CellAddress, half: Half, value: u32) -> Result<(), Fault>
        ensures answer { result ≡ put_half_answer (cells self.old) address.0 half }
        ensures after { cells self.new ≡ (if is_ok result then half_put (cells self.old) address.0 half value else cells self.old) }
        ensures count { length (cells self.new) ≡ length (cells self.old) }
        ensures taken { OnOk result (puts_half self.old address.0 half value self.new) }
        ensures refused { OnErr result (self.new ≡ self.old) };

    ghost bounded: { (s : Self) → length (cells s) ≤ most_cells };

    ghost ranged: { (s : Self) (a : ℕ) → a < length (cells s) → CellFits (cell_at (cells s) a) };
}
