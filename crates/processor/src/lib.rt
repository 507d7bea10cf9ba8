// The processor that a worker runs on: a worker's program knows its words by relative addresses alone. Its definition is in specs/; a step and a run of the code are proved to be those, over every store.
// `inline(always)` stands on what a step goes through and several functions call: as a call it would hand its answer over in memory.
#![tactic(auto)]

mod address;
mod comparisons;
mod computations;
mod decode;
mod effect;
mod executive;
mod fields;
mod guard;
mod instruction;
mod jumps;
mod limits;
mod operand;
mod operation;
mod outcome;
mod references;
mod report;
mod running;
mod shifts;
mod skips;
mod stepping;
mod text;
mod transfers;
mod writing;

pub use address::RelativeAddress;
pub use limits::{Limits, MOST_WORDS};
use operation::{Computation, Operation, Shifted};
pub use outcome::{Ending, Ran};
pub use references::ReferenceFault;
pub use report::{Cause, Reference, ReferenceKind, Report};
pub use running::run;
pub use stepping::step;
