// What memory is to be made: one, or two with the rule that joins them.
use pairs::Rule;

// Beside `Bank` for the same reason as `Layout` beside the store.
#[derive(Clone, Copy, Debug, PartialEq, Eq)]
pub enum Kind {
    // 32-bit numbers, one to a cell
    Word,
    // 16-bit numbers, two to a cell
    Parity,
}

// A memory: its kind, and of how many numbers it is.
#[derive(Clone, Copy, Debug, PartialEq, Eq)]
pub struct Part {
    pub kind: Kind,
    pub size: u32,
}

// A description, to copy and to compare; the store that is made by it is neither, and a type over both would be no plainer.
#[derive(Clone, Copy, Debug, PartialEq, Eq)]
pub enum Layout {
    Single(Part),
    Pair {
        rule: Rule,
        first: Part,
        second: Part,
    },
}
