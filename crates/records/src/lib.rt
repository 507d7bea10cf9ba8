// A worker's registers, and the register record: the bytes in which they are saved.
#![tactic(auto)]

mod fault;
mod record;
mod registers;
mod setting;
mod text;

pub use fault::{BufferTooShort, RecordFault};
pub use registers::Registers;

#[cfg(test)]
mod tests;
