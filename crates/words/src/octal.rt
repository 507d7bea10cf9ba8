// Halves and words as they are written: five octal digits, and ten.
ghost use Rattle.std.specs.Prelude.{Some};
ghost use Rattle.words.specs.Octal.{octal_half, octal_word};

use super::{HalfWord, Word};
use std::fmt;

impl fmt::Display for HalfWord {
    ghost output = { λ h. Some (octal_half h) };

    #[tactic(auto, using(crate::proofs::OctalDigits::padded_octal))]
    fn fmt<W: fmt::Write>(&self, f: &mut fmt::Formatter<W>) -> fmt::Result {
        let number = self.get();
        write!(f, "{number:05o}")
    }
}

impl fmt::Display for Word {
    ghost output = { λ w. Some (octal_word w) };

    fn fmt<W: fmt::Write>(&self, f: &mut fmt::Formatter<W>) -> fmt::Result {
        let upper = self.upper_half();
        let lower = self.lower_half();
        write!(f, "{upper}{lower}")
    }
}
