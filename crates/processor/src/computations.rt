// Sums and logic.
ghost use Rattle.std.specs.Prelude.{◌≡◌};
ghost use Rattle.processor.specs.Computations.{compute, computed, replace, with_computed};
ghost use Rattle.processor.specs.Effects.{skip_if};
ghost use Rattle.processor.specs.Limits.{machine_in};
ghost use Rattle.processor.specs.Results.{effected};
ghost use Rattle.processor.specs.Skips.{computed_skip_met};

use super::effect::{Next, Pending, Puts};
use super::fields::Instruction;
use super::references::Words;
use super::{Computation, Report};
use records::Registers;
use store::Store;
use words::{Word, word_bits};

impl Computation {
    // The new A, of the old A, Q and Y.
    #[tactic(auto, unfolding(crate::specs::Computations::computed))]
    #[inline(always)]
    fn computed(self, a: Word, q: Word, y: Word) -> Word
        ensures { result ≡ computed self a q y }
    {
        match self {
            Computation::Sum => a.sum(y),
            Computation::Difference => a.difference(y),
            Computation::Increment => y.sum(word_bits(1)),
            Computation::Decrement => y.difference(word_bits(1)),
            Computation::Product => y.product(q),
            Computation::SumWithProduct => a.sum(y.product(q)),
            Computation::DifferenceWithProduct => a.difference(y.product(q)),
            Computation::SelectiveSet => a.selective_set(y),
            Computation::SelectiveComplement => a.selective_complement(y),
            Computation::SelectiveClear => a.selective_clear(y),
            Computation::SelectiveSubstitute => a.selective_substitute(q, y),
        }
    }

    // Puts the new A in, and answers it.
    #[inline(always)]
    fn compute_in(self, registers: &mut Registers, y: Word) -> Word
        ensures value { result ≡ registers.new.a }
        ensures after { registers.new ≡ with_computed self registers.old y }
    {
        let a = self.computed(registers.a(), registers.q(), y);
        registers.set_a(a);
        a
    }

    fn next_by(self, j: u8, registers: &Registers) -> Next
        ensures { result ≡ skip_if (computed_skip_met self j registers.now.a registers.now.q) }
    {
        Next::skip_if(self.skip_met(j, registers.a(), registers.q()))
    }
}

// Computes A by Y and skips by j.
pub(crate) fn compute<S: Store>(
    computation: Computation,
    words: &Words<'_, S>,
    registers: &mut Registers,
    i: &Instruction,
) -> Result<Pending, Report>
    ensures { effected registers.new result ≡ compute computation (machine_in (S.cells words.now.store.now) words.now.limits registers.old) i.now }
{
    let y = words.operand(registers, i)?;
    computation.compute_in(registers, y);
    Ok(Pending::only(computation.next_by(i.j(), registers)))
}

// The same, and the new A is stored by k where Y was read.
pub(crate) fn replace<S: Store>(
    computation: Computation,
    words: &Words<'_, S>,
    registers: &mut Registers,
    i: &Instruction,
) -> Result<Pending, Report>
    ensures { effected registers.new result ≡ replace computation (machine_in (S.cells words.now.store.now) words.now.limits registers.old) i.now }
{
    let at = i.effective(registers);
    let y = words.operand(registers, i)?;
    let a = computation.compute_in(registers, y);
    Ok(Pending {
        puts: Puts::stored(i.k(), at, a, a),
        next: computation.next_by(i.j(), registers),
    })
}
