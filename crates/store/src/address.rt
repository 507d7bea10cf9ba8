// The address of a cell in a store's row, counted from 0. Any number is one; a store answers "no cell" at its count and past it.
#[derive(Clone, Copy, Debug, PartialEq, Eq)]
pub struct CellAddress(pub u32);
