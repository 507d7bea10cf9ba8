// Comparisons: they leave all registers and words, and skip or not.
ghost use Rattle.std.specs.Prelude.{◌≡◌};
ghost use Rattle.words.specs.Double.{over};
ghost use Rattle.processor.specs.Comparisons.{compare_aq_equal, compare_aq_less, compare_masked, double_read, masked_equal, masked_less};
ghost use Rattle.processor.specs.Limits.{machine_in};
ghost use Rattle.processor.specs.Results.{effected};

use super::Report;
use super::effect::{Next, Pending};
use super::fields::Instruction;
use super::references::Words;
use super::skips::skip_met;
use records::Registers;
use store::Store;
use words::DoubleWord;

// A skip by j, with A less the logical product of Y and Q in place of A.
pub(crate) fn compare_masked<S: Store>(
    words: &Words<'_, S>,
    registers: &Registers,
    i: &Instruction,
) -> Result<Pending, Report>
    ensures { effected registers.now result ≡ compare_masked (machine_in (S.cells words.now.store.now) words.now.limits registers.now) i.now }
{
    let y = words.operand(registers, i)?;
    let q = registers.q();
    let difference = registers.a().difference(y.product(q));
    Ok(Pending::only(Next::skip_if(skip_met(i.j(), difference, q))))
}

// The words at ȳ and after it as one of 60 bits.
fn read_double<S: Store>(
    words: &Words<'_, S>,
    registers: &Registers,
    i: &Instruction,
) -> Result<DoubleWord, Report>
    ensures { result ≡ double_read (machine_in (S.cells words.now.store.now) words.now.limits registers.now) i.now }
{
    let first = words.read(i.effective(registers))?;
    let second = words.read(i.further(registers, 1))?;
    Ok(first.over(second))
}

// A over Q.
fn aq(registers: &Registers) -> DoubleWord
    ensures { result ≡ over registers.now.a registers.now.q }
{
    registers.a().over(registers.q())
}

// All 60 bits are equal.
pub(crate) fn compare_aq_equal<S: Store>(
    words: &Words<'_, S>,
    registers: &Registers,
    i: &Instruction,
) -> Result<Pending, Report>
    ensures { effected registers.now result ≡ compare_aq_equal (machine_in (S.cells words.now.store.now) words.now.limits registers.now) i.now }
{
    let other = read_double(words, registers, i)?;
    let aq = aq(registers);
    Ok(Pending::only(Next::skip_if(aq.equals(other))))
}

// AQ is less, as a signed number.
pub(crate) fn compare_aq_less<S: Store>(
    words: &Words<'_, S>,
    registers: &Registers,
    i: &Instruction,
) -> Result<Pending, Report>
    ensures { effected registers.now result ≡ compare_aq_less (machine_in (S.cells words.now.store.now) words.now.limits registers.now) i.now }
{
    let other = read_double(words, registers, i)?;
    let aq = aq(registers);
    Ok(Pending::only(Next::skip_if(aq.is_less(other))))
}

// A and the word at ȳ are equal where Q has ones.
pub(crate) fn masked_equal<S: Store>(
    words: &Words<'_, S>,
    registers: &Registers,
    i: &Instruction,
) -> Result<Pending, Report>
    ensures { effected registers.now result ≡ masked_equal (machine_in (S.cells words.now.store.now) words.now.limits registers.now) i.now }
{
    let word = words.read(i.effective(registers))?;
    let test = registers.a().equals_under(registers.q(), word);
    Ok(Pending::only(Next::skip_if(test)))
}

// A is less than the word at ȳ where Q has ones.
pub(crate) fn masked_less<S: Store>(
    words: &Words<'_, S>,
    registers: &Registers,
    i: &Instruction,
) -> Result<Pending, Report>
    ensures { effected registers.now result ≡ masked_less (machine_in (S.cells words.now.store.now) words.now.limits registers.now) i.now }
{
    let word = words.read(i.effective(registers))?;
    let test = registers.a().is_less_under(registers.q(), word);
    Ok(Pending::only(Next::skip_if(test)))
}
