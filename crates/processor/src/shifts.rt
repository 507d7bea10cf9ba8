// Shifts of A, of Q, or of both as one number of 60 bits.
ghost use Rattle.std.specs.Prelude.{◌≡◌};
ghost use Rattle.processor.specs.Limits.{machine_in};
ghost use Rattle.processor.specs.Results.{effect, effected};
ghost use Rattle.processor.specs.Shifts.{count_of, scale, shift_by_operand, shift_of, shift_right_logical, shifted};

use super::effect::{Next, Pending};
use super::fields::Instruction;
use super::references::Words;
use super::skips::skip_met;
use super::{RelativeAddress, Report, Shifted};
use records::Registers;
use store::Store;
use words::{DoubleWord, Word, word_bits};

// To the right, filled with the sign or with zeros; or to the left, around.
#[derive(Clone, Copy, Debug, PartialEq, Eq)]
pub(crate) enum Shift {
    RightWithSign,
    RightWithZeros,
    LeftAround,
}

impl Shift {
    fn word(self, word: Word, count: u32) -> Word
        ensures { result ≡ shift_of self 30 word count }
    {
        match self {
            Shift::RightWithSign => word.shifted_right_with_sign(count),
            Shift::RightWithZeros => word.shifted_right(count),
            Shift::LeftAround => word.turned_left(count),
        }
    }

    fn double(self, number: DoubleWord, count: u32) -> DoubleWord
        ensures { result ≡ shift_of self 60 number count }
    {
        match self {
            Shift::RightWithSign => number.shifted_right_with_sign(count),
            Shift::RightWithZeros => number.shifted_right(count),
            Shift::LeftAround => number.turned_left(count),
        }
    }

    // Does it to the registers that it moves.
    fn apply(self, which: Shifted, registers: &mut Registers, count: u32)
        ensures { registers.new ≡ shifted self which registers.old count }
    {
        match which {
            Shifted::A => registers.set_a(self.word(registers.a(), count)),
            Shifted::Q => registers.set_q(self.word(registers.q(), count)),
            Shifted::Aq => {
                let aq = self.double(registers.a().over(registers.q()), count);
                registers.set_a(aq.upper());
                registers.set_q(aq.lower());
            }
        }
    }
}

// The count that a number tells: its lowest six bits, of which 60 and more are illegal.
fn count_of(registers: &Registers, number: u32) -> Result<u32, Report>
    ensures { result ≡ count_of registers.now number }
{
    let count = number % 64;
    if count < 60 {
        Ok(count)
    } else {
        Err(Report::IllegalInstruction(RelativeAddress(registers.p())))
    }
}

// By the operand, and a skip by j.
#[inline(always)]
pub(crate) fn shift_by_operand<S: Store>(
    shift: Shift,
    which: Shifted,
    words: &Words<'_, S>,
    registers: &mut Registers,
    i: &Instruction,
) -> Result<Pending, Report>
    ensures { effected registers.new result ≡ shift_by_operand shift which (machine_in (S.cells words.now.store.now) words.now.limits registers.old) i.now }
{
    let y = words.operand(registers, i)?;
    let count = count_of(registers, y.get())?;
    shift.apply(which, registers, count);
    Ok(Pending::skipping(i.j(), registers))
}

// To the right by ȳ, filled with zeros.
pub(crate) fn shift_right_logical(
    which: Shifted,
    registers: &mut Registers,
    i: &Instruction,
) -> Result<Pending, Report>
    ensures { effected registers.new result ≡ shift_right_logical which registers.old i.now }
{
    let count = count_of(registers, i.effective(registers).0)?;
    Shift::RightWithZeros.apply(which, registers, count);
    Ok(Pending::only(Next::Onward))
}

// A turned by its scale factor, and that in Q.
pub(crate) fn scale(registers: &mut Registers) -> Pending
    ensures { effect registers.new result ≡ scale registers.old }
{
    let scaled = registers.a().scaled();
    registers.set_a(scaled.word);
    registers.set_q(word_bits(scaled.count));
    Pending::only(Next::Onward)
}
