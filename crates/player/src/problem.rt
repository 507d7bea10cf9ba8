// Why a line is not answered.
use std::alloc::{AllocError, AllocFailed};
use std::error::Error;
use std::fmt;

#[derive(Debug, Drop)]
pub(crate) enum Problem {
    NoCase,
    OutOfMemory,
    // a play changed a cell that is none of the worker's
    OtherCellChanged,
    // where those cells are compared, others are taken for them
    OtherCellsNotSeen,
    // two plays over different stores gave different results
    PlaysDiffer,
}

impl fmt::Display for Problem {
    fn fmt<W: fmt::Write>(&self, f: &mut fmt::Formatter<W>) -> fmt::Result {
        match self {
            Problem::NoCase => write!(f, "no case"),
            Problem::OutOfMemory => write!(f, "out of memory"),
            Problem::OtherCellChanged => write!(f, "another cell changed"),
            Problem::OtherCellsNotSeen => write!(f, "other cells are taken for those around"),
            Problem::PlaysDiffer => write!(f, "two plays differ"),
        }
    }
}

impl Error for Problem {}

impl From<AllocError> for Problem {
    fn from(_: AllocError) -> Self {
        Problem::OutOfMemory
    }
}

impl<T: Drop> From<AllocFailed<T>> for Problem {
    fn from(_: AllocFailed<T>) -> Self {
        Problem::OutOfMemory
    }
}
