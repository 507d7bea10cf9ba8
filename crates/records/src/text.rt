// Registers as text.
ghost use Rattle.std.specs.Prelude.{◌≡◌, Some};
ghost use Rattle.records.specs.Registers.{index};
ghost use Rattle.records.specs.Text.{b_texts, octal_six, registers_text};

use crate::registers::Registers;
use std::fmt;
use words::{HalfWord, half_bits};

impl Registers {
    // Bj as a half, which it is.
    fn half(&self, j: u32) -> HalfWord
        ensures { result ≡ index self.now j }
    {
        half_bits(self.b(j))
    }
}

// B1 to B7, with a space between two.
#[derive(Drop)]
struct IndexRegisters<'a>(&'a Registers);

impl fmt::Display for IndexRegisters<'_> {
    ghost output = { λ b. Some (b_texts b.0.now) };

    fn fmt<W: fmt::Write>(&self, f: &mut fmt::Formatter<W>) -> fmt::Result {
        let r = self.0;
        write!(
            f,
            "{} {} {} {} ",
            r.half(1),
            r.half(2),
            r.half(3),
            r.half(4)
        )?;
        write!(f, "{} {} {}", r.half(5), r.half(6), r.half(7))
    }
}

// A number of 17 bits in six octal digits.
#[derive(Drop)]
struct SixDigits(u32);

impl fmt::Display for SixDigits {
    ghost output = { λ n. Some (octal_six n.0) };

    fn fmt<W: fmt::Write>(&self, f: &mut fmt::Formatter<W>) -> fmt::Result {
        let first = (self.0 >> 15) % 8;
        let others = half_bits(self.0);
        write!(f, "{first}{others}")
    }
}

impl fmt::Display for Registers {
    ghost output = { λ r. Some (registers_text r) };

    fn fmt<W: fmt::Write>(&self, f: &mut fmt::Formatter<W>) -> fmt::Result {
        let (a, q, p) = (self.a, self.q, SixDigits(self.p));
        let b = IndexRegisters(self);
        write!(f, "A {a}, Q {q}, B {b}, P {p}")
    }
}
