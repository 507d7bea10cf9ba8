// The word of a cell, from the halves that are good.
ghost use Rattle.std.specs.Prelude.{◌≡◌};
ghost use Rattle.store.specs.Cells.{Cell, value_of};
ghost use Rattle.store.specs.Functions.{word_of};

use store::{Fault, Half};
use words::{HalfWord, Word, join};

// The word, if both halves are good; the upper one is looked at first.
pub(crate) fn word(upper: Option<HalfWord>, lower: Option<HalfWord>) -> Result<Word, Fault>
    ensures { (c : Cell) → upper ≡ value_of c.upper → lower ≡ value_of c.lower → result ≡ word_of c }
{
    let upper = upper.ok_or(Fault::Spoiled(Half::Upper))?;
    let lower = lower.ok_or(Fault::Spoiled(Half::Lower))?;
    Ok(join(upper, lower))
}
