// What calls answer.
use super::{Refusal, Span};
use processor::{Ran, Report};
use records::Registers;
use store::CellAddress;
use words::Word;

// The state of a worker: ready to run, or held, with the report of the interrupt.
#[derive(Clone, Copy, Debug, PartialEq, Eq)]
pub enum State {
    Ready,
    Held(Report),
}

#[derive(Clone, Copy, Debug, PartialEq, Eq)]
pub struct Told {
    pub state: State,
    pub registers: Registers,
}

// The answer to each call. That to a save has the whole buffer as it is after, taken or refused.
#[derive(Clone, Debug, PartialEq, Eq, Drop)]
pub enum Answer<B> {
    Admitted(Result<(), Refusal>),
    Loaded(Result<(), Refusal>),
    Looked(Result<Word, Refusal>),
    Ran(Result<Ran, Refusal>),
    Answered(Result<(), Refusal>),
    Saved(Result<(), Refusal>, B),
    Restored(Result<(), Refusal>),
    Told(Result<Told, Refusal>),
    Retired(Result<(), Refusal>),
    Spanned(Result<Span, Refusal>),
    FixedAddress(Result<CellAddress, Refusal>),
}
