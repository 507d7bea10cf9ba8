// A worker's limits: where its words lie.
ghost use Rattle.std.specs.Prelude.{◌≡◌, ◌+◌, ◌&&◌, ◌<◌, nat_le, nat_lt, IfOk, Ok, Err, Some, None, if◌then◌else◌};
ghost use Rattle.store.specs.Cells.{most_cells};
ghost use Rattle.processor.specs.Limits.{Bounded, most_words, share};

use super::RelativeAddress;
use super::references::ReferenceFault;
use std::marker::Model;
use store::{CellAddress, MOST_CELLS};

// The most words that a worker has.
pub const MOST_WORDS: u32 = 32_768;

// So many cells from the lower limit on: at most 32,768, and none past the 131,072 that a store can have.
#[derive(Clone, Copy, Debug, PartialEq, Eq)]
pub struct Limits {
    lower: CellAddress,
    length: u32,
}

impl Model for Limits {
    ghost use Rattle.processor.specs.Limits.{Limits, Bounded};

    ghost Value = { Limits };

    ghost view = { λ l. record { lower = l.lower.0; length = l.length } };

    ghost invariant = { λ l. Bounded (record { lower = l.lower.0; length = l.length }) };

    ghost inverse = { λ v. record { lower = record { 0 = v.lower }; length = v.length } };
}

impl Limits {
    // These limits, if there can be such.
    pub fn new(lower: CellAddress, length: u32) -> Option<Limits>
        ensures { result ≡ (if nat_le length most_words && nat_le (lower.0 + length) most_cells then Some (record { lower = lower.0; length = length }) else None) }
    {
        if length > MOST_WORDS || lower.0 > MOST_CELLS - length {
            return None;
        }
        Some(Limits { lower, length })
    }

    // The lower limit.
    pub fn lower(self) -> CellAddress
        ensures value { result ≡ record { 0 = self.lower } }
        ensures bounded { Bounded self }
    {
        self.lower
    }

    pub fn length(self) -> u32
        ensures value { result ≡ self.length }
        ensures bounded { Bounded self }
    {
        self.length
    }

    // The address after the last cell.
    pub fn end(self) -> u32
        ensures value { result ≡ self.lower + self.length }
        ensures bounded { Bounded self }
    {
        self.lower.0 + self.length
    }

    // Is there a cell within both? It answers so for limits that have cells. Those with a length of 0 have none, and still overlap others whose lower limit is below theirs and whose end is above it.
    pub fn overlap(self, other: Limits) -> bool
        ensures { result ≡ share self other }
    {
        self.lower.0 < other.end() && other.lower.0 < self.end()
    }

    // The limits check, which alone makes a cell's address of a relative one.
    pub fn cell(self, address: RelativeAddress) -> Result<CellAddress, ReferenceFault>
        ensures value { result ≡ (if nat_lt address.0 self.length then Ok (record { 0 = self.lower + address.0 }) else Err ReferenceFault.Protection) }
        ensures bounded { Bounded self }
        ensures within { IfOk result (λ cell. (address.0 < self.length) × (cell.0 ≡ self.lower + address.0)) }
    {
        if address.0 < self.length {
            Ok(CellAddress(self.lower.0 + address.0))
        } else {
            Err(ReferenceFault::Protection)
        }
    }
}
