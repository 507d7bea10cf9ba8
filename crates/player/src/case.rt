// Cases without their results.
use super::cell::Cell;
use super::problem::Problem;
use super::registers::read_registers;
use records::Registers;
use std::alloc::Global;

// What is done: one step, or a run for a budget of steps.
#[derive(Clone, Copy)]
pub(crate) enum Task {
    Step,
    Run(u32),
}

// The machine of one worker, and what it does.
#[derive(Drop)]
pub(crate) struct Case {
    pub(crate) task: Task,
    pub(crate) length: u32,
    pub(crate) registers: Registers,
    pub(crate) words: Vec<Cell>,
}

// The words that a text is.
pub(crate) fn read_words(heap: Global, text: &str) -> Result<Vec<Cell>, Problem> {
    let mut words = Vec::new(heap);
    for word in text.split_whitespace() {
        words.push(Cell::read(word).ok_or(Problem::NoCase)?)?;
    }
    Ok(words)
}

// The three fields that tell of a machine.
#[derive(Drop)]
struct MachineFields<'a> {
    length: &'a str,
    registers: &'a str,
    words: &'a str,
}

impl MachineFields<'_> {
    // The case, if the worker has as many words as its length says.
    fn read(&self, heap: Global, task: Task) -> Result<Case, Problem> {
        let length = self.length.parse::<u32>().map_err(|_| Problem::NoCase)?;
        let registers = read_registers(self.registers).ok_or(Problem::NoCase)?;
        let words = read_words(heap, self.words)?;
        if words.len() != length as usize {
            return Err(Problem::NoCase);
        }
        Ok(Case {
            task,
            length,
            registers,
            words,
        })
    }
}

// The task of a case, and its other fields.
fn fields_of(line: &str) -> Option<(Task, MachineFields<'_>)> {
    let mut fields = line.split(" | ");
    let _label = fields.next()?;
    let second = fields.next()?;
    let third = fields.next()?;
    let fourth = fields.next()?;
    let fifth = fields.next();
    if fields.next().is_some() {
        return None;
    }
    Some(match fifth {
        None => (
            Task::Step,
            MachineFields {
                length: second,
                registers: third,
                words: fourth,
            },
        ),
        Some(words) => (
            Task::Run(second.parse::<u32>().ok()?),
            MachineFields {
                length: third,
                registers: fourth,
                words,
            },
        ),
    })
}

// The case that a line is: `label | length | registers | words` is a step, and with a budget after the label it is a run.
pub(crate) fn read_case(heap: Global, line: &str) -> Result<Case, Problem> {
    let (task, machine) = fields_of(line).ok_or(Problem::NoCase)?;
    machine.read(heap, task)
}
