// The calls of an installation as values. B is what bytes are given in.
use processor::RelativeAddress;
use store::CellAddress;

// What a worker is admitted to, besides its place and its lower limit.
#[derive(Clone, Copy, Debug, PartialEq, Eq)]
pub struct Terms {
    pub length: u32,
    pub entry: RelativeAddress,
}

// What is asked of a worker.
#[derive(Clone, Debug, PartialEq, Eq, Drop)]
pub enum Request<B> {
    Load { address: RelativeAddress, word: u32 },
    Look { address: RelativeAddress },
    Run { budget: u32 },
    Answer { a: u32, q: u32, p: u32 },
    Save { buffer: B },
    Restore { bytes: B },
    Tell,
}

// A call with its arguments. `Ask` and `Retire` are the calls for the worker at a place.
#[derive(Clone, Debug, PartialEq, Eq, Drop)]
pub enum Call<B> {
    Admit {
        place: u32,
        lower: CellAddress,
        terms: Terms,
    },
    Ask {
        place: u32,
        request: Request<B>,
    },
    Retire {
        place: u32,
    },
    Span {
        place: u32,
    },
    FixedAddress {
        cause: u32,
        address: CellAddress,
    },
}
