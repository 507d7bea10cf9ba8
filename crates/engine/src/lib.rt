// An installation: one store, and places for eight workers in it, each of which knows its own words alone. Its definition is in specs/; the calls of the code are
// proved to be those, over every store.
#![tactic(auto)]

mod admitting;
mod answer;
mod call;
mod calls;
mod fixed;
mod installation;
mod performing;
mod place;
mod refusal;
mod replaying;
mod serving;
mod text;

pub use answer::{Answer, State, Told};
pub use call::{Call, Request, Terms};
pub use fixed::fixed_address;
pub use installation::Installation;
pub use place::Span;
use place::{Place, Worker};
pub use refusal::Refusal;
pub use replaying::{OutOfMemory, Replayed, replay_both};
