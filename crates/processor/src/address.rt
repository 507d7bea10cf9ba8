// The address of a word among those of one worker, counted from 0. Any number is one; a worker has no word at its length and past it.
#[derive(Clone, Copy, Debug, PartialEq, Eq)]
pub struct RelativeAddress(pub u32);
