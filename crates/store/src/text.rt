// Halves, faults and replies as text.
ghost use Rattle.std.specs.Prelude.{Some};
ghost use Rattle.store.specs.Text.{half_text, fault_text, reply_text};

use super::{Fault, Half, Reply};
use std::error::Error;
use std::fmt;

impl fmt::Display for Half {
    ghost output = { λ h. Some (half_text h) };

    fn fmt<W: fmt::Write>(&self, f: &mut fmt::Formatter<W>) -> fmt::Result {
        match self {
            Half::Upper => write!(f, "upper"),
            Half::Lower => write!(f, "lower"),
        }
    }
}

impl fmt::Display for Fault {
    ghost output = { λ fault. Some (fault_text fault) };

    fn fmt<W: fmt::Write>(&self, f: &mut fmt::Formatter<W>) -> fmt::Result {
        match self {
            Fault::NoCell => write!(f, "no cell"),
            Fault::Spoiled(half) => write!(f, "spoiled {half}"),
        }
    }
}

impl Error for Fault {}

impl fmt::Display for Reply {
    ghost output = { λ reply. Some (reply_text reply) };

    fn fmt<W: fmt::Write>(&self, f: &mut fmt::Formatter<W>) -> fmt::Result {
        match *self {
            Reply::Counted(count) => write!(f, "{count}"),
            Reply::Fetched(Ok(word)) => write!(f, "{word}"),
            Reply::Put(Ok(())) => write!(f, "ok"),
            Reply::Fetched(Err(fault)) | Reply::Put(Err(fault)) => write!(f, "{fault}"),
        }
    }
}
