// Executive return, and test and set.
ghost use Rattle.std.specs.Prelude.{◌≡◌};
ghost use Rattle.processor.specs.Executive.{executive_return, test_and_set};
ghost use Rattle.processor.specs.Limits.{machine_in};
ghost use Rattle.processor.specs.Results.{effected};

use super::Report;
use super::effect::{Next, Pending, Put, Puts};
use super::fields::Instruction;
use super::references::Words;
use records::Registers;
use store::{Half, Store};
use words::half_bits;

// Interrupts, and tells ȳ.
pub(crate) fn executive_return(registers: &Registers, i: &Instruction) -> Report
    ensures { result ≡ executive_return registers.now i.now }
{
    Report::ExecutiveReturn(i.effective(registers))
}

// If bit 14 of the word at ȳ is set, interrupts and tells ȳ; otherwise the lower half of the word becomes all ones.
pub(crate) fn test_and_set<S: Store>(
    words: &Words<'_, S>,
    registers: &Registers,
    i: &Instruction,
) -> Result<Pending, Report>
    ensures { effected registers.now result ≡ test_and_set (machine_in (S.cells words.now.store.now) words.now.limits registers.now) i.now }
{
    let at = i.effective(registers);
    let word = words.read(at)?;
    if (word.get() >> 14) % 2 == 1 {
        return Err(Report::TestAndSet(at));
    }
    Ok(Pending {
        puts: Puts::One(Put::Half(at, Half::Lower, half_bits(0o77777))),
        next: Next::Onward,
    })
}
