// The memories that a layout describes: a word or a parity memory, or a pair of them; and one store over any such.
#![tactic(auto)]

mod any;
mod bank;
mod layout;
mod setup;

pub use any::AnyStore;
pub use bank::{Bank, OutOfRange};
pub use layout::{Kind, Layout, Part};
pub use pairs::{Rule, Side};
pub use setup::Setup;

#[cfg(test)]
mod tests;
