// What comes of a run.
use super::Report;

// No step interrupted, or the last one done did.
#[derive(Clone, Copy, Debug, PartialEq, Eq)]
pub enum Ending {
    Spent,
    Interrupted(Report),
}

// How many steps were done, one that interrupted included, and how the run ended.
#[derive(Clone, Copy, Debug, PartialEq, Eq)]
pub struct Ran {
    pub steps: u32,
    pub ending: Ending,
}
