// Playing a case.
use super::case::{Case, Task, read_case};
use super::cell::Cell;
use super::memory::Laid;
use super::outcome::Outcome;
use super::plays::Plays;
use super::problem::Problem;
use super::registers::Written;
use super::surroundings::Surroundings;
use pairs::Pair;
use processor::{Limits, run, step};
use records::Registers;
use std::alloc::Global;
use std::fmt;
use store::{CellAddress, Store};
use stores::{ParityStore, WordStore};

const IN_WORD_STORE: Surroundings = Surroundings {
    before: 6,
    after: 5,
    seed: 7919,
};

// An odd lower limit, so that the first of the worker's words lies in the second store.
const IN_PAIR: Surroundings = Surroundings {
    before: 13,
    after: 4,
    seed: 104_729,
};

// What a play gives.
#[derive(PartialEq, Eq, Drop)]
pub(crate) struct Played {
    outcome: Outcome,
    registers: Registers,
    words: Vec<Cell>,
}

impl fmt::Display for Played {
    fn fmt<W: fmt::Write>(&self, f: &mut fmt::Formatter<W>) -> fmt::Result {
        write!(f, "{} | {} | ", self.outcome, Written(self.registers))?;
        if let Some((first, others)) = self.words.split_first() {
            write!(f, "{first}")?;
            for word in others {
                write!(f, " {word}")?;
            }
        }
        Ok(())
    }
}

impl Task {
    // Does it on a store.
    fn play<S: Store>(self, store: &mut S, limits: Limits, registers: &mut Registers) -> Outcome {
        match self {
            Task::Step => Outcome::Stepped(step(store, limits, registers)),
            Task::Run(budget) => Outcome::Ran(run(store, limits, registers, budget)),
        }
    }
}

impl Surroundings {
    // Plays a case on a store that has the worker's words among these cells, which have to be as they were.
    fn play<S: Laid>(
        self,
        heap: Global,
        plays: &mut Plays,
        case: &Case,
    ) -> Result<Played, Problem> {
        let limits = Limits::new(CellAddress(self.before), case.length).ok_or(Problem::NoCase)?;
        let row = self.around(heap, case.words.as_slice())?;
        let mut store = S::over(heap, row.as_slice())?;
        plays.count(store.kind());
        let mut registers = case.registers;
        let outcome = case.task.play(&mut store, limits, &mut registers);
        let row = store.into_cells(heap)?;
        let words: Vec<Cell> = row
            .iter()
            .copied()
            .skip(self.before as usize)
            .take(case.length as usize)
            .collect(heap)?;
        let (row, words_now) = (row.as_slice(), words.as_slice());
        if !self.are_around(heap, row, words_now)? {
            return Err(Problem::OtherCellChanged);
        }
        if self.others().are_around(heap, row, words_now)? {
            return Err(Problem::OtherCellsNotSeen);
        }
        Ok(Played {
            outcome,
            registers,
            words,
        })
    }
}

// What the case of a line gives, over two kinds of stores.
pub(crate) fn play_line(heap: Global, plays: &mut Plays, line: &str) -> Result<Played, Problem> {
    let case = read_case(heap, line)?;
    let first = IN_WORD_STORE.play::<WordStore>(heap, plays, &case)?;
    let second = IN_PAIR.play::<Pair<ParityStore, ParityStore>>(heap, plays, &case)?;
    plays.one_of(first, second)
}
