// Jumps, and the instructions that count in Bj.
ghost use Rattle.std.specs.Prelude.{◌≡◌};
ghost use Rattle.processor.specs.Jumps.{jump, jump_on_b, return_jump, returning, skip_on_b, target};
ghost use Rattle.processor.specs.Limits.{machine_in};
ghost use Rattle.processor.specs.Results.{effect, effected};
ghost use Rattle.processor.specs.Skips.{skip_met};

use super::effect::{Next, Pending, Put, Puts};
use super::fields::Instruction;
use super::references::Words;
use super::skips::skip_met;
use super::{RelativeAddress, Report};
use records::Registers;
use store::{Half, Store};
use words::{HalfWord, half_bits};

// The target: the lowest 15 bits of Y.
#[inline(always)]
fn target<S: Store>(
    words: &Words<'_, S>,
    registers: &Registers,
    i: &Instruction,
) -> Result<HalfWord, Report>
    ensures { result ≡ target (machine_in (S.cells words.now.store.now) words.now.limits registers.now) i.now }
{
    Ok(words.operand(registers, i)?.lower_half())
}

fn jump_met(registers: &Registers, i: &Instruction) -> bool
    ensures { result ≡ skip_met i.now.j registers.now.a registers.now.q }
{
    skip_met(i.j(), registers.a(), registers.q())
}

// Jumps if j's test holds.
pub(crate) fn jump<S: Store>(
    words: &Words<'_, S>,
    registers: &Registers,
    i: &Instruction,
) -> Result<Pending, Report>
    ensures { effected registers.now result ≡ jump (machine_in (S.cells words.now.store.now) words.now.limits registers.now) i.now }
{
    let target = target(words, registers, i)?;
    Ok(Pending::only(if jump_met(registers, i) {
        Next::Jumping(target)
    } else {
        Next::Onward
    }))
}

// P + 1 goes to the lower half of the word at the target, and the program goes on after that word, both modulo 32,768.
fn returning(registers: &Registers, target: HalfWord) -> Pending
    ensures { effect registers.now result ≡ returning registers.now target }
{
    let back = half_bits(registers.p() + 1);
    let at = RelativeAddress(target.get());
    Pending {
        puts: Puts::One(Put::Half(at, Half::Lower, back)),
        next: Next::Jumping(half_bits(target.get() + 1)),
    }
}

// That, if j's test holds.
pub(crate) fn return_jump<S: Store>(
    words: &Words<'_, S>,
    registers: &Registers,
    i: &Instruction,
) -> Result<Pending, Report>
    ensures { effected registers.now result ≡ return_jump (machine_in (S.cells words.now.store.now) words.now.limits registers.now) i.now }
{
    let target = target(words, registers, i)?;
    Ok(if jump_met(registers, i) {
        returning(registers, target)
    } else {
        Pending::only(Next::Onward)
    })
}

// Bj counts up, modulo 32,768, until it is the lowest 15 bits of Y; then it starts again from 0, and the program skips. `set_b` drops the carry.
pub(crate) fn skip_on_b<S: Store>(
    words: &Words<'_, S>,
    registers: &mut Registers,
    i: &Instruction,
) -> Result<Pending, Report>
    ensures { effected registers.new result ≡ skip_on_b (machine_in (S.cells words.now.store.now) words.now.limits registers.old) i.now }
{
    let target = target(words, registers, i)?;
    let j = i.j().into();
    let b = registers.b(j);
    Ok(Pending::only(if b == target.get() {
        registers.set_b(j, 0);
        Next::Skipping
    } else {
        registers.set_b(j, b + 1);
        Next::Onward
    }))
}

// Bj counts down, and the program jumps, until it is 0.
pub(crate) fn jump_on_b<S: Store>(
    words: &Words<'_, S>,
    registers: &mut Registers,
    i: &Instruction,
) -> Result<Pending, Report>
    ensures { effected registers.new result ≡ jump_on_b (machine_in (S.cells words.now.store.now) words.now.limits registers.old) i.now }
{
    let target = target(words, registers, i)?;
    let j = i.j().into();
    let b = registers.b(j);
    Ok(Pending::only(if b == 0 {
        Next::Onward
    } else {
        registers.set_b(j, b - 1);
        Next::Jumping(target)
    }))
}
