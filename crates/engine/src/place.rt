// Places and their workers.
use processor::{Limits, Report};
use records::Registers;
use store::CellAddress;

// The cells of a worker: so many, from the lower limit on.
#[derive(Clone, Copy, Debug, PartialEq, Eq)]
pub struct Span {
    pub lower: CellAddress,
    pub length: u32,
}

#[derive(Clone, Copy, Debug, PartialEq, Eq)]
pub struct Worker {
    pub limits: Limits,
    pub registers: Registers,
}

// A place is free, or its worker is ready to run, or held by an interrupt until it is answered or restored.
#[derive(Clone, Copy, Debug, PartialEq, Eq)]
pub enum Place {
    Free,
    Ready(Worker),
    Held(Worker, Report),
}
