// The effective address and the operand of an instruction.
ghost use Rattle.std.specs.Prelude.{◌≡◌};
ghost use Rattle.processor.specs.Limits.{machine_in};
ghost use Rattle.processor.specs.Operands.{effective, further, operand, picked};
ghost use Rattle.processor.specs.Reports.{relative};

use super::fields::Instruction;
use super::references::Words;
use super::{RelativeAddress, Report};
use records::Registers;
use store::Store;
use words::{HalfWord, Word, half_bits};

impl Instruction {
    // The effective address ȳ as a number: y and Bb, modulo 32,768.
    #[inline(always)]
    fn effective_half(&self, registers: &Registers) -> HalfWord
        ensures { result ≡ effective registers.now self.now }
    {
        half_bits(self.y().get() + registers.b(self.b().into()))
    }

    pub(crate) fn effective(&self, registers: &Registers) -> RelativeAddress
        ensures { result ≡ relative (effective registers.now self.now) }
    {
        RelativeAddress(self.effective_half(registers).get())
    }

    // The address so many words further on, modulo 32,768.
    pub(crate) fn further(&self, registers: &Registers, words: u8) -> RelativeAddress
        ensures { result ≡ relative (further registers.now self.now words) }
    {
        let address = self.effective(registers).0 + u32::from(words);
        RelativeAddress(half_bits(address).get())
    }
}

// The part of a word that k picks, as a word: a half with zeros above, or with bit 14 copied upwards, or all of it.
#[inline(always)]
fn picked(k: u8, word: Word) -> Word
    ensures { result ≡ picked k word }
{
    match k {
        1 => word.lower_half().with_zeros(),
        2 => word.upper_half().with_zeros(),
        5 => word.lower_half().extended(),
        6 => word.upper_half().extended(),
        _ => word,
    }
}

impl<S: Store> Words<'_, S> {
    // The operand Y by k. A whole word, which most operands are, is read at a place of its own for speed.
    #[inline(always)]
    pub(crate) fn operand(&self, registers: &Registers, i: &Instruction) -> Result<Word, Report>
        ensures { result ≡ operand (machine_in (S.cells self.now.store.now) self.now.limits registers.now) i.now }
    {
        let effective = i.effective_half(registers);
        let at = RelativeAddress(effective.get());
        Ok(match i.k() {
            0 => effective.with_zeros(),
            3 => self.read(at)?,
            4 => effective.extended(),
            1 | 2 | 5 | 6 => picked(i.k(), self.read(at)?),
            _ => registers.a(),
        })
    }
}
