// Setting registers.
ghost use Rattle.std.specs.Prelude.{◌≡◌, ◌%◌, ◌^◌};
ghost use Rattle.records.specs.Registers.{with_index, with_p};

use crate::registers::Registers;
use words::Word;

impl Registers {
    pub fn set_a(&mut self, word: Word)
        ensures { self.new ≡ record self.old { a = word } }
    {
        self.a = word;
    }

    pub fn set_q(&mut self, word: Word)
        ensures { self.new ≡ record self.old { q = word } }
    {
        self.q = word;
    }

    // Puts the lowest 15 bits of a number in Bj; B0 stays 0.
    pub fn set_b(&mut self, j: u32, number: u32)
        ensures { self.new ≡ with_index self.old j (number % 2 ^ 15) }
    {
        if (1..=7).contains(&j) {
            self.b[j as usize - 1] = number % (1 << 15);
        }
    }

    // Puts the lowest 17 bits of a number in P.
    pub fn set_p(&mut self, number: u32)
        ensures { self.new ≡ with_p self.old (number % 2 ^ 17) }
    {
        self.p = number % (1 << 17);
    }

    // Puts A, Q and B1 to B7 back as they were; P stays.
    pub fn put_back(&mut self, before: &Registers)
        ensures { self.new ≡ with_p before.now self.old.p }
    {
        self.a = before.a;
        self.q = before.q;
        self.b = before.b;
    }
}
