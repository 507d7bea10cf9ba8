// Histories of an installation, on two kinds of stores.
use super::answers::WrittenAnswer;
use super::calls::read_call;
use super::case::read_words;
use super::cell::Cell;
use super::memory::Laid;
use super::plays::Plays;
use super::problem::Problem;
use engine::{Answer, Call, Installation};
use pairs::Pair;
use std::alloc::Global;
use std::fmt;
use stores::{ParityStore, WordStore};

// An interleaved pair, and behind it a store for the last cell of an odd number of cells.
type WithOddLast = Pair<Pair<ParityStore, ParityStore>, ParityStore>;

// What a history gives: its answers, and the row after the last call.
#[derive(PartialEq, Eq, Drop)]
pub(crate) struct PlayedHistory {
    answers: Vec<Answer<Vec<u8>>>,
    row: Vec<Cell>,
}

impl fmt::Display for PlayedHistory {
    fn fmt<W: fmt::Write>(&self, f: &mut fmt::Formatter<W>) -> fmt::Result {
        if let Some((first, others)) = self.answers.split_first() {
            write!(f, "{}", WrittenAnswer(first))?;
            for answer in others {
                write!(f, "; {}", WrittenAnswer(answer))?;
            }
        }
        write!(f, " |")?;
        for cell in self.row.iter() {
            write!(f, " {cell}")?;
        }
        Ok(())
    }
}

// The row and the calls of a history: `label | row | calls`.
fn fields_of(line: &str) -> Option<(&str, &str)> {
    let mut fields = line.split(" | ");
    let _label = fields.next()?;
    let row = fields.next()?;
    let calls = fields.next()?;
    fields.next().is_none().then_some((row, calls))
}

// Is the line a history?
pub(crate) fn is_history(line: &str) -> bool {
    fields_of(line).is_some()
}

// The calls that a text is.
fn read_calls(heap: Global, text: &str) -> Result<Vec<Call<Vec<u8>>>, Problem> {
    let mut calls = Vec::new(heap);
    for call in text.split("; ") {
        calls.push(read_call(heap, call)?)?;
    }
    Ok(calls)
}

// Plays a history on a store of this type.
fn play_on<S: Laid>(heap: Global, plays: &mut Plays, line: &str) -> Result<PlayedHistory, Problem> {
    let (row, calls) = fields_of(line).ok_or(Problem::NoCase)?;
    let row = read_words(heap, row)?;
    let calls = read_calls(heap, calls)?;
    let store = S::over(heap, row.as_slice())?;
    plays.count(store.kind());
    let mut installation = Installation::new(store);
    let answers = installation.replay(heap, calls)?;
    let row = installation.into_store().into_cells(heap)?;
    Ok(PlayedHistory { answers, row })
}

// What the history of a line gives, over two kinds of stores.
pub(crate) fn play_history(
    heap: Global,
    plays: &mut Plays,
    line: &str,
) -> Result<PlayedHistory, Problem> {
    let first = play_on::<WordStore>(heap, plays, line)?;
    let second = play_on::<WithOddLast>(heap, plays, line)?;
    plays.one_of(first, second)
}
