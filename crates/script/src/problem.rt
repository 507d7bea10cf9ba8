// What stops a script: the line, counted from 1, and the reason.
ghost use Rattle.std.specs.Prelude.{Some};
ghost use Rattle.script.specs.Transcript.{problem_text};

use crate::reason::Reason;
use std::error::Error;
use std::fmt;

#[derive(Clone, Copy, Debug, PartialEq, Eq)]
pub struct Problem {
    pub line: u64,
    pub reason: Reason,
}

impl fmt::Display for Problem {
    ghost output = { λ problem. Some (problem_text problem) };

    fn fmt<W: fmt::Write>(&self, f: &mut fmt::Formatter<W>) -> fmt::Result {
        let Problem { line, reason } = self;
        write!(f, "line {line}: {reason}")
    }
}

impl Error for Problem {}
