// The registers of a worker.
ghost use Rattle.std.specs.Prelude.{◌≡◌, ◌%◌, ◌^◌, ◌<◌};
ghost use Rattle.records.specs.Registers.{Fits, index, starting_at};

use std::marker::Model;
use words::{Word, word_bits};

// A, Q, B1 to B7 and P. B1 to B7 have 15 bits each and P has 17.
#[derive(Clone, Copy, Debug, PartialEq, Eq)]
pub struct Registers {
    pub(crate) a: Word,
    pub(crate) q: Word,
    pub(crate) b: [u32; 7],
    pub(crate) p: u32,
}

impl Model for Registers {
    ghost use Rattle.records.specs.Registers.{Registers, Fits};

    ghost Value = { Registers };

    ghost view = { λ r. record { a = r.a; q = r.q; b = r.b; p = r.p } };

    ghost invariant = { λ r. Fits (record { a = r.a; q = r.q; b = r.b; p = r.p }) };

    ghost inverse = { λ v. record { a = v.a; q = v.q; b = v.b; p = v.p } };
}

impl Registers {
    // Those of a new worker: P is the lowest 17 bits of the entry, and all others are 0.
    pub fn starting_at(entry: u32) -> Registers
        ensures { result ≡ starting_at (entry % 2 ^ 17) }
    {
        Registers {
            a: word_bits(0),
            q: word_bits(0),
            b: [0; 7],
            p: entry % (1 << 17),
        }
    }

    pub fn a(&self) -> Word
        ensures { result ≡ self.now.a }
    {
        self.a
    }

    pub fn q(&self) -> Word
        ensures { result ≡ self.now.q }
    {
        self.q
    }

    // Bj; B0 is 0, and so is any that there is not.
    pub fn b(&self, j: u32) -> u32
        ensures value { result ≡ index self.now j }
        ensures small { result < 2 ^ 15 }
    {
        match j {
            1..=7 => self.b[j as usize - 1],
            _ => 0,
        }
    }

    pub fn p(&self) -> u32
        ensures value { result ≡ self.now.p }
        ensures fits { Fits self.now }
    {
        self.p
    }
}
