// Why a line is no statement, or one that cannot be done.
ghost use Rattle.std.specs.Prelude.{◌≡◌, Some};
ghost use Rattle.script.specs.declared.reason.Reason.TheVariants as reasons;
ghost use Rattle.script.specs.Transcript.{reason_text};

use std::error::Error;
use std::fmt;

#[derive(Clone, Copy, Debug, PartialEq, Eq)]
pub enum Reason {
    UnknownWord,
    WordCount,
    NotANumber,
    TooLarge,
    NoMemory,
    SecondMemory,
    NoInstallation,
    Installed,
    OutOfRange,
}

impl fmt::Display for Reason {
    ghost output = { λ reason. Some (reason_text reason) };

    fn fmt<W: fmt::Write>(&self, f: &mut fmt::Formatter<W>) -> fmt::Result {
        match self {
            Reason::UnknownWord => write!(f, "unknown word"),
            Reason::WordCount => write!(f, "wrong number of words"),
            Reason::NotANumber => write!(f, "not a number"),
            Reason::TooLarge => write!(f, "number of 2^32 or more"),
            Reason::NoMemory => write!(f, "no memory yet"),
            Reason::SecondMemory => write!(f, "a second memory"),
            Reason::NoInstallation => write!(f, "no installation yet"),
            Reason::Installed => write!(f, "installed already"),
            Reason::OutOfRange => write!(f, "number out of range"),
        }
    }
}

impl Error for Reason {}

impl From<memories::OutOfRange> for Reason {
    ghost from_gives = { λ error reason. reason ≡ reasons.OutOfRange };

    fn from(_: memories::OutOfRange) -> Self {
        Reason::OutOfRange
    }
}
