// Stores of several kinds, made of cells.
use super::cells::{Cell, HalfCell};
use super::kinds::Kind;
use pairs::{Pair, Rule};
use std::alloc::{AllocError, Global};
use store::Store;
use stores::{ParityStore, WordStore};
use words::join;

const UPPER_SPOILED: u32 = 1 << 31;

const LOWER_SPOILED: u32 = 1 << 30;

// Set in a parity store's number where its lower bits alone would give the other mark.
const TOP_BIT: u16 = 1 << 15;

// How a pair has its cells: by a rule, and where they follow one another so many of them in the first store.
#[derive(Clone, Copy)]
pub(crate) struct Plan {
    pub(crate) rule: Rule,
    pub(crate) seam: u32,
}

// A store made of cells; in pairs of pairs the inner rule is the other one.
pub(crate) trait Laid: Store + Drop {
    fn over(heap: Global, cells: &[Cell], plan: Plan) -> Result<Self, AllocError>
    where
        Self: Sized;

    // The kind that it is.
    fn kind(&self) -> Option<Kind>;
}

fn word_number(cell: Cell) -> u32 {
    let upper = if cell.upper.is_good { 0 } else { UPPER_SPOILED };
    let lower = if cell.lower.is_good { 0 } else { LOWER_SPOILED };
    upper | lower | join(cell.upper.value, cell.lower.value).get()
}

fn half_number(half: HalfCell) -> u16 {
    let bits = half.value.get() as u16;
    let has_odd_ones = bits.count_ones() % 2 == 1;
    if has_odd_ones == half.is_good {
        bits
    } else {
        bits | TOP_BIT
    }
}

impl Laid for WordStore {
    fn over(heap: Global, cells: &[Cell], _: Plan) -> Result<Self, AllocError> {
        let numbers = cells.iter().map(|cell| word_number(*cell)).collect(heap)?;
        Ok(WordStore::new(numbers))
    }

    fn kind(&self) -> Option<Kind> {
        Some(Kind::Word)
    }
}

impl Laid for ParityStore {
    fn over(heap: Global, cells: &[Cell], _: Plan) -> Result<Self, AllocError> {
        let mut numbers = Vec::new(heap);
        for cell in cells {
            numbers.push(half_number(cell.upper))?;
            numbers.push(half_number(cell.lower))?;
        }
        Ok(ParityStore::new(numbers))
    }

    fn kind(&self) -> Option<Kind> {
        Some(Kind::Parity)
    }
}

impl Plan {
    // Does the cell at this index lie in the first store?
    fn is_first(self, index: usize) -> bool {
        match self.rule {
            Rule::Continuous => index < self.seam as usize,
            Rule::Interleaved => index % 2 == 0,
        }
    }

    // The plan of pairs within.
    fn within(self) -> Plan {
        let rule = match self.rule {
            Rule::Continuous => Rule::Interleaved,
            Rule::Interleaved => Rule::Continuous,
        };
        Plan {
            rule,
            seam: self.seam / 2,
        }
    }

    // The cells of the first store, or of the second.
    fn part(self, heap: Global, cells: &[Cell], first: bool) -> Result<Vec<Cell>, AllocError> {
        let mut part = Vec::new(heap);
        for (index, cell) in cells.iter().enumerate() {
            if self.is_first(index) == first {
                part.push(*cell)?;
            }
        }
        Ok(part)
    }
}

impl<F: Laid, S: Laid> Laid for Pair<F, S> {
    fn over(heap: Global, cells: &[Cell], plan: Plan) -> Result<Self, AllocError> {
        let first = plan.part(heap, cells, true)?;
        let second = plan.part(heap, cells, false)?;
        Ok(Pair {
            rule: plan.rule,
            first: F::over(heap, first.as_slice(), plan.within())?,
            second: S::over(heap, second.as_slice(), plan.within())?,
        })
    }

    fn kind(&self) -> Option<Kind> {
        Kind::of_pair(self.rule, self.first.kind()?, self.second.kind()?)
    }
}
