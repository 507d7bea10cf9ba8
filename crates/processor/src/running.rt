// A run: steps until the budget is spent or one interrupts.
ghost use Rattle.std.specs.Prelude.{◌≡◌, ◌+◌, ◌≤◌, length};
ghost use Rattle.records.specs.Registers.{Fits};
ghost use Rattle.processor.specs.Beneath.{PutsDo, run_puts};
ghost use Rattle.processor.specs.Limits.{Becomes, KeepsOtherCells, between, machine_in, row_with};
ghost use Rattle.processor.specs.Placed.{run_in};
ghost use Rattle.processor.specs.Run.{EndingOfCell, StepsOf};

use super::limits::Limits;
use super::stepping::guarded_step;
use super::{Ending, Ran};
use records::Registers;
use store::Store;

// What `run` does, apart from it for the proof of its laws.
fn run_steps<S: Store>(store: &mut S, limits: Limits, registers: &mut Registers, budget: u32) -> Ran
    ensures told { result ≡ (run_in (S.cells store.old) limits registers.old budget).told }
    ensures registers { registers.new ≡ (run_in (S.cells store.old) limits registers.old budget).machine.registers }
    ensures words { Becomes (S.cells store.old) limits (run_in (S.cells store.old) limits registers.old budget).machine.words (S.cells store.new) }
    ensures does { PutsDo S.puts_whole S.puts_half limits (run_puts budget (machine_in (S.cells store.old) limits registers.old)) store.old store.new }
    ensures widths { Fits registers.old → Fits registers.new }
    ensures steps { StepsOf result.ending result.steps budget }
{
    for done in 0..budget {
        if let Err(report) = guarded_step(store, limits, registers) {
            return Ran {
                steps: done + 1,
                ending: Ending::Interrupted(report),
            };
        }
    }
    Ran {
        steps: budget,
        ending: Ending::Spent,
    }
}

// Does as many steps as the budget has, or up to and with the first that is interrupted.
pub fn run<S: Store>(store: &mut S, limits: Limits, registers: &mut Registers, budget: u32) -> Ran
    ensures told { result ≡ (run_in (S.cells store.old) limits registers.old budget).told }
    ensures registers { registers.new ≡ (run_in (S.cells store.old) limits registers.old budget).machine.registers }
    ensures words { between (S.cells store.new) limits ≡ (run_in (S.cells store.old) limits registers.old budget).machine.words }
    ensures row { S.cells store.new ≡ row_with (S.cells store.old) limits.lower limits.length (run_in (S.cells store.old) limits registers.old budget).machine.words }
    ensures store { PutsDo S.puts_whole S.puts_half limits (run_puts budget (machine_in (S.cells store.old) limits registers.old)) store.old store.new }
    ensures found { limits.lower + limits.length ≤ length (S.cells store.old) → EndingOfCell result.ending }
    ensures other_cells { KeepsOtherCells (S.cells store.old) limits (S.cells store.new) }
    ensures as_many_words { length (between (S.cells store.new) limits) ≡ length (between (S.cells store.old) limits) }
    ensures widths { Fits registers.old → Fits registers.new }
    ensures steps { StepsOf result.ending result.steps budget }
{
    run_steps(store, limits, registers, budget)
}
