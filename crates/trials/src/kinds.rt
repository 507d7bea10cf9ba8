// Kinds of stores.
use super::memory::Plan;
use super::random::Random;
use pairs::Rule;
use std::fmt;

// Those made of two others are named by their rule and by what they are made of. The last stands only in pairs of pairs.
#[derive(Clone, Copy, Debug, PartialEq, Eq)]
pub(crate) enum Kind {
    Word,
    Parity,
    Continuous,
    Interleaved,
    InterleavedParities,
    ContinuousOfPairs,
    InterleavedOfPairs,
    ContinuousParities,
}

impl Kind {
    // Those that are drawn.
    pub(crate) const ALL: [Kind; 7] = [
        Kind::Word,
        Kind::Parity,
        Kind::Continuous,
        Kind::Interleaved,
        Kind::InterleavedParities,
        Kind::ContinuousOfPairs,
        Kind::InterleavedOfPairs,
    ];

    pub(crate) fn any(random: &mut Random) -> Kind {
        random.one_of(&Kind::ALL)
    }

    // How a store of this kind has its cells, if it is a pair.
    pub(crate) fn plan(self, seam: u32) -> Plan {
        let rule = match self {
            Kind::Interleaved | Kind::InterleavedParities | Kind::InterleavedOfPairs => {
                Rule::Interleaved
            }
            Kind::Word
            | Kind::Parity
            | Kind::Continuous
            | Kind::ContinuousOfPairs
            | Kind::ContinuousParities => Rule::Continuous,
        };
        Plan { rule, seam }
    }

    // The kind of a pair by this rule of stores of these kinds, if it is one of them.
    pub(crate) fn of_pair(rule: Rule, first: Kind, second: Kind) -> Option<Kind> {
        match (rule, first, second) {
            (Rule::Continuous, Kind::Word, Kind::Parity) => Some(Kind::Continuous),
            (Rule::Interleaved, Kind::Word, Kind::Parity) => Some(Kind::Interleaved),
            (Rule::Continuous, Kind::Parity, Kind::Parity) => Some(Kind::ContinuousParities),
            (Rule::Interleaved, Kind::Parity, Kind::Parity) => Some(Kind::InterleavedParities),
            (Rule::Continuous, Kind::InterleavedParities, Kind::Interleaved) => {
                Some(Kind::ContinuousOfPairs)
            }
            (Rule::Interleaved, Kind::ContinuousParities, Kind::Continuous) => {
                Some(Kind::InterleavedOfPairs)
            }
            _ => None,
        }
    }
}

impl fmt::Display for Kind {
    fn fmt<W: fmt::Write>(&self, f: &mut fmt::Formatter<W>) -> fmt::Result {
        match self {
            Kind::Word => write!(f, "word store"),
            Kind::Parity => write!(f, "parity store"),
            Kind::Continuous => write!(f, "word store, then parity store"),
            Kind::Interleaved => write!(f, "word store and parity store in turn"),
            Kind::InterleavedParities => write!(f, "two parity stores in turn"),
            Kind::ContinuousOfPairs => write!(f, "two interleaved pairs, one after the other"),
            Kind::InterleavedOfPairs => write!(f, "two continuous pairs in turn"),
            Kind::ContinuousParities => write!(f, "two parity stores, one after the other"),
        }
    }
}
