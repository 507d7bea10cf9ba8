// What an interrupt reports.
use super::RelativeAddress;
use store::Fault;

// What a reference to a word is for: the next instruction, reading, or writing.
#[derive(Clone, Copy, Debug, PartialEq, Eq)]
pub enum ReferenceKind {
    Fetch,
    Read,
    Write,
}

#[derive(Clone, Copy, Debug, PartialEq, Eq)]
pub struct Reference {
    pub kind: ReferenceKind,
    pub address: RelativeAddress,
}

// Why a worker was interrupted.
#[derive(Clone, Copy, Debug, PartialEq, Eq)]
pub enum Report {
    // a code that is no instruction, a k that it does not allow, or a shift count of 60 or more, in the instruction at this address
    IllegalInstruction(RelativeAddress),
    // a reference to a word that the worker does not have
    Protection(Reference),
    // a reference to a word at which the store has a fault
    Parity(Reference, Fault),
    // an executive return, with its effective address
    ExecutiveReturn(RelativeAddress),
    // a test and set of a word whose bit 14 is set already, at this effective address
    TestAndSet(RelativeAddress),
}

// The causes of interrupts; `cause_number` in specs/ gives their numbers.
#[derive(Clone, Copy, Debug, PartialEq, Eq)]
pub enum Cause {
    IllegalInstruction,
    Protection,
    Parity,
    ExecutiveReturn,
    TestAndSet,
}
