// Kinds of stores.
use std::fmt;

#[derive(Clone, Copy, Debug, PartialEq, Eq)]
pub(crate) enum Kind {
    Words,
    Parities,
    // with a store behind the pair, for the last cell of an odd number of cells
    ParitiesAndLast,
}

impl Kind {
    pub(crate) const ALL: [Kind; 3] = [Kind::Words, Kind::Parities, Kind::ParitiesAndLast];
}

impl fmt::Display for Kind {
    fn fmt<W: fmt::Write>(&self, f: &mut fmt::Formatter<W>) -> fmt::Result {
        match self {
            Kind::Words => write!(f, "word stores"),
            Kind::Parities => write!(f, "interleaved pairs of parity stores"),
            Kind::ParitiesAndLast => write!(f, "such pairs with a parity store behind them"),
        }
    }
}
