// Playing two histories of one worker.
use super::cells::Cell;
use super::histories::{History, Whose};
use super::kinds::Kind;
use super::layout::Layout;
use super::memory::Laid;
use engine::{Answer, Refusal, Replayed, Told, replay_both};
use pairs::Pair;
use std::alloc::{AllocError, Global};
use store::{CellAddress, Fault, Store};
use stores::{ParityStore, WordStore};
use words::Word;

type Mixed = Pair<WordStore, ParityStore>;

type Parities = Pair<ParityStore, ParityStore>;

// A store that is still to be made, and its history.
#[derive(Drop)]
pub(crate) struct Side {
    pub(crate) layout: Layout,
    pub(crate) row: Vec<Cell>,
    pub(crate) history: History,
}

// What came of a history: the kind of the store that it was played on, the answers to the calls for the worker and those to the others, what tell says at the end, and the worker's words.
#[derive(Drop)]
pub(crate) struct Played {
    pub(crate) kind: Option<Kind>,
    pub(crate) answers: Vec<Answer<Vec<u8>>>,
    pub(crate) other_answers: Vec<Answer<Vec<u8>>>,
    pub(crate) told: Result<Told, Refusal>,
    pub(crate) words: Vec<Result<Word, Fault>>,
}

impl Played {
    // Parts the answers, and looks at the worker's place and its words.
    fn read<S: Laid>(
        heap: Global,
        replayed: Replayed<S>,
        whose: &[Whose],
        layout: Layout,
        place: u32,
    ) -> Result<Played, AllocError> {
        let Replayed {
            answers: all,
            installation,
        } = replayed;
        let mut answers = Vec::new(heap);
        let mut other_answers = Vec::new(heap);
        for (answer, whose) in all.into_iter().zip(whose.iter()) {
            match whose {
                Whose::Worker => answers.push(answer)?,
                Whose::Other => other_answers.push(answer)?,
            }
        }
        let told = installation.tell(place);
        let store = installation.into_store();
        let words = words_of(heap, &store, layout)?;
        Ok(Played {
            kind: store.kind(),
            answers,
            other_answers,
            told,
            words,
        })
    }
}

// The words of the worker, or the faults of those that have a spoiled half.
fn words_of<S: Store>(
    heap: Global,
    store: &S,
    layout: Layout,
) -> Result<Vec<Result<Word, Fault>>, AllocError> {
    let mut words = Vec::new(heap);
    for address in layout.lower..layout.lower + layout.length {
        words.push(store.fetch(CellAddress(address)))?;
    }
    Ok(words)
}

// Plays on stores of these two types.
fn play_on<S: Laid, T: Laid>(
    heap: Global,
    place: u32,
    first: Side,
    second: Side,
) -> Result<(Played, Played), AllocError> {
    let first_store = S::over(heap, first.row.as_slice(), first.layout.plan())?;
    let second_store = T::over(heap, second.row.as_slice(), second.layout.plan())?;
    let History { calls, whose } = first.history;
    let History {
        calls: second_calls,
        whose: second_whose,
    } = second.history;
    let both = match replay_both(heap, first_store, calls, second_store, second_calls) {
        Ok(both) => both,
        Err(lost) => return Err(lost.error),
    };
    let (first_replayed, second_replayed) = both;
    let first_played = Played::read(heap, first_replayed, whose.as_slice(), first.layout, place)?;
    let second_played = Played::read(
        heap,
        second_replayed,
        second_whose.as_slice(),
        second.layout,
        place,
    )?;
    Ok((first_played, second_played))
}

// Plays on a store of this type and one of the second side's kind.
fn play_from<S: Laid>(
    heap: Global,
    place: u32,
    first: Side,
    second: Side,
) -> Result<(Played, Played), AllocError> {
    match second.layout.kind {
        Kind::Word => play_on::<S, WordStore>(heap, place, first, second),
        Kind::Parity => play_on::<S, ParityStore>(heap, place, first, second),
        Kind::Continuous | Kind::Interleaved => play_on::<S, Mixed>(heap, place, first, second),
        Kind::InterleavedParities | Kind::ContinuousParities => {
            play_on::<S, Parities>(heap, place, first, second)
        }
        Kind::ContinuousOfPairs | Kind::InterleavedOfPairs => {
            play_on::<S, Pair<Parities, Mixed>>(heap, place, first, second)
        }
    }
}

// Plays the histories of two sides, each on a store of its kind.
pub(crate) fn play(
    heap: Global,
    place: u32,
    first: Side,
    second: Side,
) -> Result<(Played, Played), AllocError> {
    match first.layout.kind {
        Kind::Word => play_from::<WordStore>(heap, place, first, second),
        Kind::Parity => play_from::<ParityStore>(heap, place, first, second),
        Kind::Continuous | Kind::Interleaved => play_from::<Mixed>(heap, place, first, second),
        Kind::InterleavedParities | Kind::ContinuousParities => {
            play_from::<Parities>(heap, place, first, second)
        }
        Kind::ContinuousOfPairs | Kind::InterleavedOfPairs => {
            play_from::<Pair<Parities, Mixed>>(heap, place, first, second)
        }
    }
}
