// The stores: what lies under the row of cells.
#![tactic(auto)]

mod halves;
mod memory;
mod number;
mod parity;
mod sixteen;
mod word;

pub use memory::{Memory, Number};
pub use parity::ParityStore;
pub use word::WordStore;

#[cfg(test)]
mod tests;
