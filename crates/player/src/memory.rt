// Stores made of cells, and the cells that their memories' numbers are, read here without the stores.
use super::cell::{Cell, HalfCell};
use super::kinds::Kind;
use pairs::{Pair, Rule};
use std::alloc::{AllocError, Global};
use store::Store;
use stores::{ParityStore, WordStore};
use words::{half_bits, join};

const UPPER_SPOILED: u32 = 1 << 31;

const LOWER_SPOILED: u32 = 1 << 30;

// Set in a parity store's number where its lower bits alone would give the other mark.
const TOP_BIT: u16 = 1 << 15;

// A store made of cells, and taken apart into them by its memory's numbers.
pub(crate) trait Laid: Store + Drop {
    // The store whose row has these cells, or all but the last of them.
    fn over(heap: Global, cells: &[Cell]) -> Result<Self, AllocError>
    where
        Self: Sized;

    // The kind that it is.
    fn kind(&self) -> Kind;

    // The cells that its memory has, one that is none of the row's too.
    fn into_cells(self, heap: Global) -> Result<Vec<Cell>, AllocError>
    where
        Self: Sized;
}

fn word_number(cell: Cell) -> u32 {
    let upper = if cell.upper.is_good { 0 } else { UPPER_SPOILED };
    let lower = if cell.lower.is_good { 0 } else { LOWER_SPOILED };
    upper | lower | join(cell.upper.value, cell.lower.value).get()
}

fn word_cell(number: u32) -> Cell {
    Cell {
        upper: HalfCell {
            value: half_bits(number >> 15),
            is_good: number & UPPER_SPOILED == 0,
        },
        lower: HalfCell {
            value: half_bits(number),
            is_good: number & LOWER_SPOILED == 0,
        },
    }
}

impl Laid for WordStore {
    fn over(heap: Global, cells: &[Cell]) -> Result<Self, AllocError> {
        let numbers = cells.iter().map(|cell| word_number(*cell)).collect(heap)?;
        Ok(WordStore::new(numbers))
    }

    fn kind(&self) -> Kind {
        Kind::Words
    }

    fn into_cells(self, heap: Global) -> Result<Vec<Cell>, AllocError> {
        let numbers = self.into_memory();
        numbers
            .iter()
            .map(|number| word_cell(*number))
            .collect(heap)
    }
}

// Has a number an odd count of ones?
fn has_odd_ones(number: u16) -> bool {
    number.count_ones() % 2 == 1
}

fn half_number(half: HalfCell) -> u16 {
    let bits = half.value.get() as u16;
    if has_odd_ones(bits) == half.is_good {
        bits
    } else {
        bits | TOP_BIT
    }
}

fn half_cell(number: u16) -> HalfCell {
    HalfCell {
        value: half_bits(u32::from(number)),
        is_good: has_odd_ones(number),
    }
}

// The cells of a parity store's memory.
fn parity_cells(heap: Global, store: ParityStore) -> Result<Vec<Cell>, AllocError> {
    let numbers = store.into_memory();
    let mut cells = Vec::new(heap);
    for halves in numbers.as_slice().chunks_exact(2) {
        if let [upper, lower] = halves {
            cells.push(Cell {
                upper: half_cell(*upper),
                lower: half_cell(*lower),
            })?;
        }
    }
    Ok(cells)
}

// The parity store with these cells.
fn parity_store(heap: Global, cells: &[Cell]) -> Result<ParityStore, AllocError> {
    let mut numbers = Vec::new(heap);
    for cell in cells {
        numbers.push(half_number(cell.upper))?;
        numbers.push(half_number(cell.lower))?;
    }
    Ok(ParityStore::new(numbers))
}

impl Laid for Pair<ParityStore, ParityStore> {
    fn over(heap: Global, cells: &[Cell]) -> Result<Self, AllocError> {
        let mut even = Vec::new(heap);
        let mut odd = Vec::new(heap);
        for (address, cell) in cells.iter().enumerate() {
            let numbers = if address % 2 == 0 {
                &mut even
            } else {
                &mut odd
            };
            numbers.push(half_number(cell.upper))?;
            numbers.push(half_number(cell.lower))?;
        }
        Ok(Pair {
            rule: Rule::Interleaved,
            first: ParityStore::new(even),
            second: ParityStore::new(odd),
        })
    }

    fn kind(&self) -> Kind {
        Kind::Parities
    }

    fn into_cells(self, heap: Global) -> Result<Vec<Cell>, AllocError> {
        let Pair { first, second, .. } = self;
        let even = parity_cells(heap, first)?;
        let odd = parity_cells(heap, second)?;
        let mut odd = odd.iter();
        let mut cells = Vec::new(heap);
        for cell in even.iter() {
            cells.push(*cell)?;
            if let Some(cell) = odd.next() {
                cells.push(*cell)?;
            }
        }
        Ok(cells)
    }
}

// An interleaved pair, and in a store behind it the last cell of an odd number of cells.
impl Laid for Pair<Pair<ParityStore, ParityStore>, ParityStore> {
    fn over(heap: Global, cells: &[Cell]) -> Result<Self, AllocError> {
        let (even, last) = cells.split_at(cells.len() / 2 * 2);
        Ok(Pair {
            rule: Rule::Continuous,
            first: Pair::over(heap, even)?,
            second: parity_store(heap, last)?,
        })
    }

    fn kind(&self) -> Kind {
        Kind::ParitiesAndLast
    }

    fn into_cells(self, heap: Global) -> Result<Vec<Cell>, AllocError> {
        let Pair { first, second, .. } = self;
        let mut cells = first.into_cells(heap)?;
        let last = parity_cells(heap, second)?;
        cells.extend_from_slice(last.as_slice())?;
        Ok(cells)
    }
}
