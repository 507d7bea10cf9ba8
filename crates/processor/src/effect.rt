// What an instruction comes to besides its registers: what it puts, and where the program goes on.
ghost use Rattle.std.specs.Prelude.{◌≡◌};
ghost use Rattle.processor.specs.Effects.{skip_if, stored};
ghost use Rattle.processor.specs.Results.{puts_of};
ghost use Rattle.processor.specs.Skips.{skip_met};
ghost use Rattle.processor.specs.declared.effect.Puts.TheVariants.{Nothing};

use super::RelativeAddress;
use super::skips::skip_met;
use records::Registers;
use store::Half;
use words::{HalfWord, Word};

// A word, or a number in one half of a word, to be put at an address.
#[derive(Clone, Copy, Debug, PartialEq, Eq)]
pub(crate) enum Put {
    Whole(RelativeAddress, Word),
    Half(RelativeAddress, Half, HalfWord),
}

// All that an instruction puts: nothing, one thing, or two words.
#[derive(Clone, Copy, Debug, PartialEq, Eq)]
pub(crate) enum Puts {
    Nothing,
    One(Put),
    TwoWords((RelativeAddress, Word), (RelativeAddress, Word)),
}

// The next P: P + 1, P + 2, or the target of a jump.
#[derive(Clone, Copy, Debug, PartialEq, Eq)]
pub(crate) enum Next {
    Onward,
    Skipping,
    Jumping(HalfWord),
}

// What an instruction leaves to be done: its puts, and the next P.
#[derive(Clone, Copy, Debug, PartialEq, Eq)]
pub(crate) struct Pending {
    pub(crate) puts: Puts,
    pub(crate) next: Next,
}

impl Next {
    // A skip, if a test holds.
    pub(crate) fn skip_if(test: bool) -> Next
        ensures { result ≡ skip_if test }
    {
        if test { Next::Skipping } else { Next::Onward }
    }
}

impl Puts {
    // What is stored at an address by k: a word, or with k of 5, 6 and 7 another one; by its lower half in one half, or whole.
    #[inline(always)]
    pub(crate) fn stored(k: u8, at: RelativeAddress, word: Word, other: Word) -> Puts
        ensures { puts_of result ≡ stored k at.0 word other }
    {
        match k {
            0 | 4 => Puts::Nothing,
            1 => Puts::One(Put::Half(at, Half::Lower, word.lower_half())),
            2 => Puts::One(Put::Half(at, Half::Upper, word.lower_half())),
            3 => Puts::One(Put::Whole(at, word)),
            5 => Puts::One(Put::Half(at, Half::Lower, other.lower_half())),
            6 => Puts::One(Put::Half(at, Half::Upper, other.lower_half())),
            _ => Puts::One(Put::Whole(at, other)),
        }
    }
}

impl Pending {
    // Nothing put.
    pub(crate) fn only(next: Next) -> Pending
        ensures { result ≡ record { puts = Nothing; next = next } }
    {
        Pending {
            puts: Puts::Nothing,
            next,
        }
    }

    // These put, and a skip by j.
    pub(crate) fn with_skip(puts: Puts, j: u8, registers: &Registers) -> Pending
        ensures { result ≡ record { puts = puts; next = skip_if (skip_met j registers.now.a registers.now.q) } }
    {
        Pending {
            puts,
            next: Next::skip_if(skip_met(j, registers.a(), registers.q())),
        }
    }

    // Nothing put, and a skip by j.
    pub(crate) fn skipping(j: u8, registers: &Registers) -> Pending
        ensures { result ≡ record { puts = Nothing; next = skip_if (skip_met j registers.now.a registers.now.q) } }
    {
        Pending::with_skip(Puts::Nothing, j, registers)
    }
}
