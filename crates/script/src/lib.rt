// The console's script: what a line says, what it does to the memory, and what it answers.
#![tactic(auto)]

mod answer;
mod call;
mod failure;
mod installed;
mod line;
mod number;
mod player;
mod problem;
mod reason;
mod session;
mod stage;
mod statement;
mod transcript;

pub use answer::Answer;
pub use failure::Failure;
pub use line::split_words;
pub use number::read_number;
pub use player::{Played, play};
pub use problem::Problem;
pub use reason::Reason;
pub use session::Session;
pub use statement::{Statement, read_statement};
