// Two stores joined into one. A pair knows the two by the interface of stores alone, and is itself a store, so pairs nest.
#![tactic(auto)]

mod pair;
mod place;
mod rule;

pub use pair::Pair;
pub use place::Side;
pub use rule::Rule;
