// Reports and what comes of a run as text.
ghost use Rattle.std.specs.Prelude.{Some};
ghost use Rattle.processor.specs.Text.{ending_text, kind_text, ran_text, report_text};

use super::{Ending, Ran, Reference, ReferenceKind, RelativeAddress, Report};
use std::fmt;

impl fmt::Display for ReferenceKind {
    ghost output = { λ kind. Some (kind_text kind) };

    fn fmt<W: fmt::Write>(&self, f: &mut fmt::Formatter<W>) -> fmt::Result {
        match self {
            ReferenceKind::Fetch => write!(f, "fetch"),
            ReferenceKind::Read => write!(f, "read"),
            ReferenceKind::Write => write!(f, "write"),
        }
    }
}

impl fmt::Display for Report {
    ghost output = { λ report. Some (report_text report) };

    fn fmt<W: fmt::Write>(&self, f: &mut fmt::Formatter<W>) -> fmt::Result {
        match *self {
            Report::IllegalInstruction(RelativeAddress(address)) => {
                write!(f, "illegal instruction, address {address}, reference none")
            }
            Report::Protection(Reference { kind, address }) => {
                let RelativeAddress(address) = address;
                write!(f, "protection, address {address}, reference {kind}")
            }
            Report::Parity(Reference { kind, address }, fault) => {
                let RelativeAddress(address) = address;
                write!(f, "parity, address {address}, reference {kind}, {fault}")
            }
            Report::ExecutiveReturn(RelativeAddress(address)) => {
                write!(f, "executive return, address {address}, reference none")
            }
            Report::TestAndSet(RelativeAddress(address)) => {
                write!(f, "test and set, address {address}, reference none")
            }
        }
    }
}

impl fmt::Display for Ending {
    ghost output = { λ ending. Some (ending_text ending) };

    fn fmt<W: fmt::Write>(&self, f: &mut fmt::Formatter<W>) -> fmt::Result {
        match self {
            Ending::Spent => write!(f, "spent"),
            Ending::Interrupted(report) => write!(f, "{report}"),
        }
    }
}

impl fmt::Display for Ran {
    ghost output = { λ ran. Some (ran_text ran) };

    fn fmt<W: fmt::Write>(&self, f: &mut fmt::Formatter<W>) -> fmt::Result {
        let Ran { steps, ending } = self;
        write!(f, "{steps} steps, {ending}")
    }
}
