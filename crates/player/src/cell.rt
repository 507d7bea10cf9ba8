// Cells as a case writes them: `upper,good,lower,good`, where good is 1 for a good half and 0 for a spoiled one.
use super::numbers::below;
use std::fmt;
use std::str::Split;
use words::{HalfWord, half_bits};

// A half of a cell. A spoiled one has a value too.
#[derive(Clone, Copy, PartialEq, Eq)]
pub(crate) struct HalfCell {
    pub(crate) value: HalfWord,
    pub(crate) is_good: bool,
}

#[derive(Clone, Copy, PartialEq, Eq)]
pub(crate) struct Cell {
    pub(crate) upper: HalfCell,
    pub(crate) lower: HalfCell,
}

impl HalfCell {
    // The half that the next two parts of a text are.
    fn read(parts: &mut Split<'_, char>) -> Option<HalfCell> {
        let value = half_bits(below(1 << 15, parts.next()?)?);
        let is_good = below(2, parts.next()?)? == 1;
        Some(HalfCell { value, is_good })
    }
}

impl Cell {
    // The cell that a text is.
    pub(crate) fn read(text: &str) -> Option<Cell> {
        let mut parts = text.split(',');
        let upper = HalfCell::read(&mut parts)?;
        let lower = HalfCell::read(&mut parts)?;
        parts.next().is_none().then_some(Cell { upper, lower })
    }
}

impl fmt::Display for HalfCell {
    fn fmt<W: fmt::Write>(&self, f: &mut fmt::Formatter<W>) -> fmt::Result {
        let value = self.value.get();
        let good = u32::from(self.is_good);
        write!(f, "{value},{good}")
    }
}

impl fmt::Display for Cell {
    fn fmt<W: fmt::Write>(&self, f: &mut fmt::Formatter<W>) -> fmt::Result {
        let Cell { upper, lower } = self;
        write!(f, "{upper},{lower}")
    }
}
