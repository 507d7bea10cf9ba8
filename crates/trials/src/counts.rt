// What is counted of trials.
ghost use Rattle.std.specs.Prelude.{◌≡◌, ◌+◌, vec_items};
ghost use Rattle.processor.specs.Reports.{cause_number, cause_of};
ghost use Rattle.engine.specs.Bytes.{answer_with};
ghost use Rattle.engine.specs.Refusals.{refusal_of};

use super::kinds::Kind;
use super::playing::Played;
use super::trial::Compared;
use engine::{Answer, Refusal};
use processor::{Ending, Ran, Report};
use std::io;

// The causes of interrupts, in the order of their numbers.
const CAUSES: [&str; 5] = [
    "illegal instruction",
    "protection",
    "parity",
    "executive return",
    "test and set",
];

#[derive(Clone, Copy, Debug, PartialEq, Eq)]
pub(crate) struct Counts {
    trials: u32,
    pub(crate) differences: u64,
    calls_for_workers: u32,
    other_calls: u32,
    runs: u32,
    steps: u64,
    // those by cause 1 first
    interrupts: [u32; 5],
    // those by number 1 first
    refusals: [u32; 19],
    stores: [u32; 7],
}

// Counts one more at an index.
fn count(counts: &mut [u32], index: usize) {
    if let Some(count) = counts.get_mut(index) {
        *count = count.saturating_add(1);
    }
}

// Which of the causes a report has: its number less one.
fn cause_index(report: Report) -> usize
    ensures { result + 1 ≡ cause_number (cause_of report) }
{
    match report {
        Report::IllegalInstruction(_) => 0,
        Report::Protection(_) => 1,
        Report::Parity(..) => 2,
        Report::ExecutiveReturn(_) => 3,
        Report::TestAndSet(_) => 4,
    }
}

// The refusal that an answer tells, if it tells one.
fn refusal_in(answer: &Answer<Vec<u8>>) -> Option<Refusal>
    ensures { result ≡ refusal_of (answer_with vec_items answer.now) }
{
    match answer {
        Answer::Admitted(result)
        | Answer::Loaded(result)
        | Answer::Answered(result)
        | Answer::Saved(result, _)
        | Answer::Restored(result)
        | Answer::Retired(result) => result.err(),
        Answer::Looked(result) => result.err(),
        Answer::Ran(result) => result.err(),
        Answer::Told(result) => result.err(),
        Answer::Spanned(result) => result.err(),
        Answer::FixedAddress(result) => result.err(),
    }
}

impl Counts {
    pub(crate) const NONE: Counts = Counts {
        trials: 0,
        differences: 0,
        calls_for_workers: 0,
        other_calls: 0,
        runs: 0,
        steps: 0,
        interrupts: [0; 5],
        refusals: [0; 19],
        stores: [0; 7],
    };

    fn count_run(&mut self, ran: Ran) {
        self.runs = self.runs.saturating_add(1);
        self.steps = self.steps.saturating_add(u64::from(ran.steps));
        if let Ending::Interrupted(report) = ran.ending {
            count(&mut self.interrupts, cause_index(report));
        }
    }

    fn count_answer(&mut self, answer: &Answer<Vec<u8>>) {
        if let Answer::Ran(Ok(ran)) = answer {
            self.count_run(*ran);
        }
        if let Some(refusal) = refusal_in(answer) {
            count(&mut self.refusals, refusal.number() as usize - 1);
        }
    }

    // Counts the store that was played on, by its kind, and what was played on it.
    fn count_side(&mut self, played: &Played) {
        if let Some(kind) = played.kind {
            count(&mut self.stores, kind as usize);
        }
        for answer in played.answers.iter() {
            self.calls_for_workers = self.calls_for_workers.saturating_add(1);
            self.count_answer(answer);
        }
        for answer in played.other_answers.iter() {
            self.other_calls = self.other_calls.saturating_add(1);
            self.count_answer(answer);
        }
    }

    // Counts a trial: both its sides, and the differences.
    pub(crate) fn count_trial(&mut self, compared: &Compared) {
        self.trials = self.trials.saturating_add(1);
        self.count_side(&compared.first);
        self.count_side(&compared.second);
        let differences = compared.found.len() as u64;
        self.differences = self.differences.saturating_add(differences);
    }

    // Did everything occur that is to occur?
    pub(crate) fn is_complete(&self) -> bool {
        self.interrupts.iter().all(|number| *number > 0)
            && self.refusals.iter().all(|number| *number > 0)
            && self.stores.iter().all(|number| *number > 0)
    }

    fn print_occurrences(&self, rt: &impl Print) -> io::Result<()> {
        for (cause, number) in CAUSES.iter().zip(self.interrupts.iter()) {
            println!(rt; "interrupts, {cause}: {number}")?;
        }
        let mut refusal = 1u32;
        for number in self.refusals.iter() {
            println!(rt; "refusals by number {refusal}: {number}")?;
            refusal = refusal.wrapping_add(1);
        }
        for (kind, number) in Kind::ALL.iter().zip(self.stores.iter()) {
            println!(rt; "stores, {kind}: {number}")?;
        }
        Ok(())
    }

    pub(crate) fn print(&self, rt: &impl Print) -> io::Result<()> {
        println!(rt; "trials: {}", self.trials)?;
        println!(rt; "calls for workers: {}", self.calls_for_workers)?;
        println!(rt; "other calls: {}", self.other_calls)?;
        println!(rt; "runs: {}", self.runs)?;
        println!(rt; "steps: {}", self.steps)?;
        self.print_occurrences(rt)?;
        println!(rt; "differences: {}", self.differences)
    }
}
