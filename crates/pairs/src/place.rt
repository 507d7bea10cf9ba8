// Where a cell of a pair lies.
use store::CellAddress;

// One of the two stores of a pair.
#[derive(Clone, Copy, Debug, PartialEq, Eq)]
pub enum Side {
    First,
    Second,
}

// In which of the two stores, and at which address there.
#[derive(Clone, Copy, Debug, PartialEq, Eq)]
pub(crate) struct Place {
    pub(crate) side: Side,
    pub(crate) address: CellAddress,
}
