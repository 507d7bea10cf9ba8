// Histories: the calls for a worker, and others before, between and after them.
ghost use Rattle.std.specs.Prelude.{◌<◌, ◌≤◌};

use super::cells::Cell;
use super::layout::Layout;
use super::others::{Moment, admit_beside, any_other, ask_other};
use super::random::Random;
use super::requests::any_request;
use engine::{Call, Request, Terms};
use processor::RelativeAddress;
use std::alloc::{AllocError, Global};
use store::CellAddress;

// For whom a call is.
#[derive(Clone, Copy, Debug, PartialEq, Eq)]
pub(crate) enum Whose {
    Worker,
    Other,
}

// How the calls for a worker end.
#[derive(Clone, Copy, Debug, PartialEq, Eq)]
pub(crate) enum Close {
    // it is still there
    Stays,
    // it is retired, and nothing follows
    Retired,
    // it is retired, and other calls follow
    Followed,
}

// A worker, and all that is asked of it. Its admit and its retire are calls of every history besides.
#[derive(Drop)]
pub(crate) struct Worker {
    pub(crate) place: u32,
    pub(crate) entry: u32,
    pub(crate) words: Vec<Cell>,
    pub(crate) requests: Vec<Request<Vec<u8>>>,
    pub(crate) close: Close,
    ghost there: { place < 8 },
}

impl Worker {
    // A worker with so many words.
    pub(crate) fn any(heap: Global, random: &mut Random, length: u32) -> Result<Worker, AllocError>
        requires some { 0 < length }
        requires few { length ≤ 32768 }
    {
        let mut words = Vec::new(heap);
        for _ in 1..length {
            words.push(Cell::of_program(random, length))?;
        }
        words.push(Cell::last_of_program(random, length))?;
        let mut requests = Vec::new(heap);
        for _ in 0..4 + random.below(16) {
            requests.push(any_request(heap, random, length)?)?;
        }
        Ok(Worker {
            place: random.below(8),
            entry: random.below(length),
            words,
            requests,
            close: random.one_of(&[Close::Stays, Close::Stays, Close::Retired, Close::Followed]),
        })
    }
}

// Calls in their order, and for whom each is.
#[derive(Drop)]
pub(crate) struct History {
    pub(crate) calls: Vec<Call<Vec<u8>>>,
    pub(crate) whose: Vec<Whose>,
}

impl History {
    fn add(&mut self, whose: Whose, call: Call<Vec<u8>>) -> Result<(), AllocError> {
        self.calls.push(call)?;
        self.whose.push(whose)?;
        Ok(())
    }

    // Adds the calls for a worker that was there before, in other cells.
    fn add_predecessor(
        &mut self,
        heap: Global,
        random: &mut Random,
        layout: Layout,
        place: u32,
    ) -> Result<(), AllocError> {
        self.add(Whose::Other, admit_beside(random, layout, place))?;
        for _ in 0..random.below(6) {
            self.add(Whose::Other, ask_other(heap, random, place)?)?;
        }
        self.add(Whose::Other, Call::Retire { place })
    }

    // Adds a few other calls.
    fn add_others(
        &mut self,
        heap: Global,
        random: &mut Random,
        layout: Layout,
        place: u32,
        moment: Moment,
    ) -> Result<(), AllocError>
        requires { place < 8 }
    {
        for _ in 0..random.below(4) {
            self.add(
                Whose::Other,
                any_other(heap, random, layout, place, moment)?,
            )?;
        }
        Ok(())
    }

    // A history of this worker in a store that is laid out so.
    pub(crate) fn of(
        heap: Global,
        random: &mut Random,
        layout: Layout,
        worker: &Worker,
    ) -> Result<History, AllocError> {
        let place = worker.place;
        let mut history = History {
            calls: Vec::new(heap),
            whose: Vec::new(heap),
        };
        history.add_others(heap, random, layout, place, Moment::Before)?;
        if random.once_in(2) {
            history.add_predecessor(heap, random, layout, place)?;
        }
        history.add_others(heap, random, layout, place, Moment::Before)?;
        history.add_others(heap, random, layout, place, Moment::Before)?;
        history.add(Whose::Worker, admit(layout, worker))?;
        for request in worker.requests.iter() {
            history.add_others(heap, random, layout, place, Moment::Beside)?;
            let request = request.clone()?;
            history.add(Whose::Worker, Call::Ask { place, request })?;
        }
        if worker.close != Close::Stays {
            history.add(Whose::Worker, Call::Retire { place })?;
        }
        if worker.close == Close::Followed {
            history.add_others(heap, random, layout, place, Moment::After)?;
        }
        Ok(history)
    }
}

// The admit of a worker in a store that is laid out so.
fn admit(layout: Layout, worker: &Worker) -> Call<Vec<u8>> {
    Call::Admit {
        place: worker.place,
        lower: CellAddress(layout.lower),
        terms: Terms {
            length: layout.length,
            entry: RelativeAddress(worker.entry),
        },
    }
}
