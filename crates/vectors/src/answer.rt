// Answers as they are written.
use std::fmt;
use words::{DoubleWord, HalfWord, Scaled, Word};

#[derive(Drop)]
pub(crate) enum Answer {
    Word(Word),
    Half(HalfWord),
    Double(DoubleWord),
    Scaled(Scaled),
    Truth(bool),
}

impl fmt::Display for Answer {
    fn fmt<W: fmt::Write>(&self, f: &mut fmt::Formatter<W>) -> fmt::Result {
        match self {
            Answer::Word(word) => write!(f, "{word}"),
            Answer::Half(half) => write!(f, "{half}"),
            Answer::Double(double) => write!(f, "{} {}", double.upper(), double.lower()),
            Answer::Scaled(scaled) => write!(f, "{} {}", scaled.word, scaled.count),
            Answer::Truth(true) => write!(f, "yes"),
            Answer::Truth(false) => write!(f, "no"),
        }
    }
}
