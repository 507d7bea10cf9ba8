// What came of a step or a run, as a case writes it.
use processor::{Ending, Ran, Reference, ReferenceKind, Report};
use std::fmt;
use store::Fault;

#[derive(Clone, Copy, PartialEq, Eq)]
pub(crate) enum Outcome {
    Stepped(Result<(), Report>),
    Ran(Ran),
}

impl fmt::Display for Outcome {
    fn fmt<W: fmt::Write>(&self, f: &mut fmt::Formatter<W>) -> fmt::Result {
        match *self {
            Outcome::Stepped(Ok(())) => write!(f, "none"),
            Outcome::Stepped(Err(report)) => write!(f, "{}", WrittenReport(report)),
            Outcome::Ran(Ran { steps, ending }) => write!(f, "{steps} {}", WrittenEnding(ending)),
        }
    }
}

#[derive(Drop)]
pub(crate) struct WrittenEnding(pub(crate) Ending);

impl fmt::Display for WrittenEnding {
    fn fmt<W: fmt::Write>(&self, f: &mut fmt::Formatter<W>) -> fmt::Result {
        match self.0 {
            Ending::Spent => write!(f, "spent"),
            Ending::Interrupted(report) => write!(f, "{}", WrittenReport(report)),
        }
    }
}

#[derive(Drop)]
pub(crate) struct WrittenReport(pub(crate) Report);

impl fmt::Display for WrittenReport {
    fn fmt<W: fmt::Write>(&self, f: &mut fmt::Formatter<W>) -> fmt::Result {
        match self.0 {
            Report::IllegalInstruction(address) => write!(f, "illegal {}", address.0),
            Report::Protection(reference) => write!(
                f,
                "protection {}",
                WrittenReference(reference)
            ),
            Report::Parity(reference, Fault::Spoiled(half)) => {
                write!(f, "parity {} {half}", WrittenReference(reference))
            }
            Report::Parity(reference, Fault::NoCell) => {
                write!(f, "parity {} no cell", WrittenReference(reference))
            }
            Report::ExecutiveReturn(address) => write!(f, "executive {}", address.0),
            Report::TestAndSet(address) => write!(f, "testset {}", address.0),
        }
    }
}

#[derive(Drop)]
struct WrittenReference(Reference);

impl fmt::Display for WrittenReference {
    fn fmt<W: fmt::Write>(&self, f: &mut fmt::Formatter<W>) -> fmt::Result {
        let Reference { kind, address } = self.0;
        write!(f, "{} {}", WrittenKind(kind), address.0)
    }
}

#[derive(Drop)]
struct WrittenKind(ReferenceKind);

impl fmt::Display for WrittenKind {
    fn fmt<W: fmt::Write>(&self, f: &mut fmt::Formatter<W>) -> fmt::Result {
        match self.0 {
            ReferenceKind::Fetch => write!(f, "fetch"),
            ReferenceKind::Read => write!(f, "read"),
            ReferenceKind::Write => write!(f, "write"),
        }
    }
}
