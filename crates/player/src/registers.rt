// Registers as a case writes them: A, Q, B1 to B7 and P.
use super::numbers::below;
use records::Registers;
use std::fmt;
use words::word_bits;

// The registers that a text is.
pub(crate) fn read_registers(text: &str) -> Option<Registers> {
    let mut parts = text.split_whitespace();
    let mut registers = Registers::starting_at(0);
    registers.set_a(word_bits(below(1 << 30, parts.next()?)?));
    registers.set_q(word_bits(below(1 << 30, parts.next()?)?));
    for j in 1..8 {
        registers.set_b(j, below(1 << 15, parts.next()?)?);
    }
    registers.set_p(below(1 << 17, parts.next()?)?);
    parts.next().is_none().then_some(registers)
}

// Registers to be written.
#[derive(Drop)]
pub(crate) struct Written(pub(crate) Registers);

impl fmt::Display for Written {
    fn fmt<W: fmt::Write>(&self, f: &mut fmt::Formatter<W>) -> fmt::Result {
        let registers = self.0;
        write!(f, "{} {}", registers.a().get(), registers.q().get())?;
        for j in 1..8 {
            write!(f, " {}", registers.b(j))?;
        }
        write!(f, " {}", registers.p())
    }
}
