// How the cells of two stores make one row.
ghost use Rattle.std.specs.Prelude.{◌≡◌, ◌≤◌};
ghost use Rattle.store.specs.Cells.{most_cells};
ghost use Rattle.pairs.specs.Pair.{pair_count, place_of};

use crate::place::{Place, Side};
use store::{CellAddress, MOST_CELLS};

#[derive(Clone, Copy, Debug, PartialEq, Eq)]
pub enum Rule {
    // the second store's cells follow the first's
    Continuous,
    // the first store has the even addresses, the second the odd ones
    Interleaved,
}

impl Rule {
    // The count of a pair, from the counts of the two stores.
    pub(crate) fn count(self, first: u32, second: u32) -> u32
        requires first { first ≤ most_cells }
        requires second { second ≤ most_cells }
        ensures { result ≡ pair_count self first second }
    {
        match self {
            Rule::Continuous => (first + second).min(MOST_CELLS),
            Rule::Interleaved => (2 * first.min(second)).min(MOST_CELLS),
        }
    }

    // The place of a pair's cell, by the count of the first store.
    pub(crate) fn place(self, first: u32, address: CellAddress) -> Place
        ensures { result ≡ place_of self first address.0 }
    {
        let (side, address) = match self {
            Rule::Continuous if address.0 < first => (Side::First, address.0),
            Rule::Continuous => (Side::Second, address.0 - first),
            Rule::Interleaved => {
                let is_even = address.0 % 2 == 0;
                let side = if is_even { Side::First } else { Side::Second };
                (side, address.0 / 2)
            }
        };
        Place {
            side,
            address: CellAddress(address),
        }
    }
}
