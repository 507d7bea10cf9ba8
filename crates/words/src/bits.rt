// Numbers of so many bits, 32 at the most.
ghost use Rattle.std.specs.Prelude.{◌≡◌, ℕ, ◌%◌, ◌^◌, ◌<◌, ◌≤◌, ◌-◌};
ghost use Rattle.std.specs.Int.{bit_at};
ghost use Rattle.words.specs.Sums.{complement};

use super::numbers::{lowest, ones};
use std::marker::Model;

// A number of N bits, so below 2^N.
#[derive(Clone, Copy, Debug, PartialEq, Eq)]
pub struct Bits<const N: u32> {
    number: u32,
}

impl<const N: u32> Model for Bits<N> {
    ghost Value = { ℕ };

    ghost view = { λ b. b.number };

    ghost invariant = { λ b. (b.number < 2 ^ N) × (N ≤ 32) };

    ghost inverse = { λ n. record { number = n } };
}

impl<const N: u32> Bits<N> {
    // The lowest N bits of a number.
    pub(crate) fn new(number: u32) -> Bits<N>
        requires { N ≤ 32 }
        ensures { result ≡ number % 2 ^ N }
    {
        Bits {
            number: lowest::<N>(number.into()) as u32,
        }
    }

    // The number.
    pub fn get(&self) -> u32
        ensures value { result ≡ self.now }
        ensures small { result < 2 ^ N }
    {
        self.number
    }

    // Each bit turned over.
    #[tactic(auto, using(crate::proofs::BitByBit::complement_bit))]
    pub fn complement(self) -> Bits<N>
        ensures value { result ≡ complement N self.entry }
        ensures bits { (i : ℕ) → i < N → bit_at result i ≡ 1 - bit_at self.entry i }
    {
        Bits {
            number: (ones::<N>() - u64::from(self.number)) as u32,
        }
    }
}
