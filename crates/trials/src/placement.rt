// How workers find room: figures that are worked by hand.
use engine::{Installation, Refusal, Terms};
use processor::RelativeAddress;
use std::alloc::{AllocError, Global};
use std::fmt;
use store::CellAddress;
use stores::WordStore;

// An admit in a store of 64 cells, with or without a worker in cells 0 to 7, and what it has to answer.
#[derive(Clone, Copy, Debug, PartialEq, Eq)]
pub(crate) struct Figure {
    beside: bool,
    lower: u32,
    length: u32,
    wanted: Result<(), Refusal>,
}

pub(crate) const FIGURES: [Figure; 4] = [
    Figure {
        beside: false,
        lower: 60,
        length: 4,
        wanted: Ok(()),
    },
    Figure {
        beside: false,
        lower: 60,
        length: 5,
        wanted: Err(Refusal::PastStore),
    },
    Figure {
        beside: true,
        lower: 7,
        length: 1,
        wanted: Err(Refusal::CellShared),
    },
    Figure {
        beside: true,
        lower: 8,
        length: 1,
        wanted: Ok(()),
    },
];

// Terms for so many words.
fn terms(length: u32) -> Terms {
    Terms {
        length,
        entry: RelativeAddress(0),
    }
}

impl Figure {
    // What the admit answers.
    pub(crate) fn answer(self, heap: Global) -> Result<Result<(), Refusal>, AllocError> {
        let mut installation = Installation::new(WordStore::new(vec![in heap; 0; 64]?));
        if self.beside {
            let _ = installation.admit(0, CellAddress(0), terms(8));
        }
        Ok(installation.admit(1, CellAddress(self.lower), terms(self.length)))
    }

    pub(crate) fn is_answered_by(self, answer: Result<(), Refusal>) -> bool {
        answer == self.wanted
    }
}

impl fmt::Display for Figure {
    fn fmt<W: fmt::Write>(&self, f: &mut fmt::Formatter<W>) -> fmt::Result {
        let beside = if self.beside {
            ", a worker in cells 0 to 7"
        } else {
            ""
        };
        let Figure { lower, length, .. } = self;
        write!(f, "64 cells{beside}, lower limit {lower}, length {length}")
    }
}

// An answer to an admit, to be written.
#[derive(Drop)]
pub(crate) struct Written(pub(crate) Result<(), Refusal>);

impl fmt::Display for Written {
    fn fmt<W: fmt::Write>(&self, f: &mut fmt::Formatter<W>) -> fmt::Result {
        match self.0 {
            Ok(()) => write!(f, "taken"),
            Err(refusal) => write!(f, "refused by number {}", refusal.number()),
        }
    }
}
