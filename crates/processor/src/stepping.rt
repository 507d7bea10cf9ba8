// One step: the instruction at P, done whole or not at all.
ghost use Rattle.std.specs.Prelude.{◌≡◌, ◌+◌, ◌<◌, ◌≤◌, ◌^◌, length, IfErr, OnErr, OnOk};
ghost use Rattle.records.specs.Registers.{Fits, with_p};
ghost use Rattle.processor.specs.Effects.{next_p};
ghost use Rattle.processor.specs.Beneath.{PutsDo, step_puts};
ghost use Rattle.processor.specs.Limits.{Becomes, Bounded, KeepsOtherCells, between, machine_in, row_with};
ghost use Rattle.processor.specs.Placed.{step_in};
ghost use Rattle.processor.specs.Reports.{OfCell, p_after};
ghost use Rattle.processor.specs.Step.{answer_of, machine_after};

use super::effect::Next;
use super::fields::Instruction;
use super::guard::Guard;
use super::instruction::instruction_effect;
use super::limits::Limits;
use super::references::Words;
use super::writing::put_all;
use super::{ReferenceKind, RelativeAddress, Report};
use records::Registers;
use store::Store;

impl Next {
    fn p_after(self, p: u32) -> u32
        requires { p < 2 ^ 17 }
        ensures { result ≡ next_p self p }
    {
        match self {
            Next::Onward => p + 1,
            Next::Skipping => p + 2,
            Next::Jumping(target) => target.get(),
        }
    }
}

impl Report {
    // P after this interrupt: it stays after every parity fault and where a fetch failed, and after any other it is P + 1.
    fn p_after(&self, p: u32) -> u32
        requires { p < 2 ^ 17 }
        ensures { result ≡ p_after self.now p }
    {
        match self {
            Report::Parity(..) => p,
            Report::Protection(reference) if reference.kind == ReferenceKind::Fetch => p,
            _ => p + 1,
        }
    }
}

// In order: the fetch at P; illegal codes; what the instruction reads and tests; what it puts, which is all tried first; and P, if nothing failed.
#[tactic(auto, unfolding(crate::specs::Step::tried, crate::specs::Step::step))]
fn attempt<S: Store>(store: &mut S, limits: Limits, registers: &mut Registers) -> Result<(), Report>
    ensures answer { result ≡ answer_of (step_in (S.cells store.old) limits registers.old) }
    ensures registers { OnOk result (registers.new ≡ (machine_after (step_in (S.cells store.old) limits registers.old)).registers) }
    ensures words { Becomes (S.cells store.old) limits (machine_after (step_in (S.cells store.old) limits registers.old)).words (S.cells store.new) }
    ensures bounded { Bounded limits }
    ensures does { PutsDo S.puts_whole S.puts_half limits (step_puts (machine_in (S.cells store.old) limits registers.old)) store.old store.new }
    ensures refused { OnErr result (store.new ≡ store.old) }
{
    let p = registers.p();
    let words = Words::new(store, limits);
    let word = words.fetch(RelativeAddress(p))?;
    let pending = instruction_effect(&words, registers, &Instruction::of(word))?;
    put_all(store, limits, pending.puts)?;
    registers.set_p(pending.next.p_after(p));
    Ok(())
}

// One step under the guard.
#[tactic(auto, unfolding(crate::specs::Step::step))]
pub(crate) fn guarded_step<S: Store>(
    store: &mut S,
    limits: Limits,
    registers: &mut Registers,
) -> Result<(), Report>
    ensures answer { result ≡ answer_of (step_in (S.cells store.old) limits registers.old) }
    ensures registers { registers.new ≡ (machine_after (step_in (S.cells store.old) limits registers.old)).registers }
    ensures words { Becomes (S.cells store.old) limits (machine_after (step_in (S.cells store.old) limits registers.old)).words (S.cells store.new) }
    ensures bounded { Bounded limits }
    ensures does { PutsDo S.puts_whole S.puts_half limits (step_puts (machine_in (S.cells store.old) limits registers.old)) store.old store.new }
    ensures refused { OnErr result (store.new ≡ store.old) }
    ensures fits { Fits registers.old }
{
    let p = registers.p();
    let before = *registers;
    let mut guard = Guard {
        registers,
        before,
        accepted: false,
    };
    match attempt(store, limits, guard.registers) {
        Ok(()) => {
            guard.accepted = true;
            Ok(())
        }
        Err(report) => {
            guard.registers.set_p(report.p_after(p));
            Err(report)
        }
    }
}

// One step. If it is interrupted, it answers the report, and all but P is as it was.
pub fn step<S: Store>(
    store: &mut S,
    limits: Limits,
    registers: &mut Registers,
) -> Result<(), Report>
    ensures answer { result ≡ answer_of (step_in (S.cells store.old) limits registers.old) }
    ensures registers { registers.new ≡ (machine_after (step_in (S.cells store.old) limits registers.old)).registers }
    ensures words { between (S.cells store.new) limits ≡ (machine_after (step_in (S.cells store.old) limits registers.old)).words }
    ensures row { S.cells store.new ≡ row_with (S.cells store.old) limits.lower limits.length (machine_after (step_in (S.cells store.old) limits registers.old)).words }
    ensures store { PutsDo S.puts_whole S.puts_half limits (step_puts (machine_in (S.cells store.old) limits registers.old)) store.old store.new }
    ensures found { limits.lower + limits.length ≤ length (S.cells store.old) → IfErr result OfCell }
    ensures other_cells { KeepsOtherCells (S.cells store.old) limits (S.cells store.new) }
    ensures as_many_words { length (between (S.cells store.new) limits) ≡ length (between (S.cells store.old) limits) }
    ensures widths { Fits registers.new }
    ensures interrupted_registers { OnErr result (registers.new ≡ with_p registers.old registers.new.p) }
    ensures interrupted_store { OnErr result (store.new ≡ store.old) }
{
    guarded_step(store, limits, registers)
}
