// Answers as a history writes them.
use super::hexadecimal::WrittenBytes;
use super::outcome::{WrittenEnding, WrittenReport};
use super::registers::Written;
use engine::{Answer, Refusal, State, Told};
use processor::Ran;
use std::fmt;

#[derive(Drop)]
struct WrittenRefusal(Refusal);

impl fmt::Display for WrittenRefusal {
    fn fmt<W: fmt::Write>(&self, f: &mut fmt::Formatter<W>) -> fmt::Result {
        write!(f, "refused {}", self.0.number())?;
        match self.0 {
            Refusal::FieldTooWide(offset) => write!(f, " {offset}"),
            Refusal::Spoiled(half) => write!(f, " {half}"),
            _ => Ok(()),
        }
    }
}

#[derive(Drop)]
struct WrittenTold(Told);

impl fmt::Display for WrittenTold {
    fn fmt<W: fmt::Write>(&self, f: &mut fmt::Formatter<W>) -> fmt::Result {
        match self.0.state {
            State::Ready => write!(f, "ready ")?,
            State::Held(report) => write!(f, "held {} ", WrittenReport(report))?,
        }
        write!(f, "{}", Written(self.0.registers))
    }
}

#[derive(Drop)]
struct WrittenRan(Ran);

impl fmt::Display for WrittenRan {
    fn fmt<W: fmt::Write>(&self, f: &mut fmt::Formatter<W>) -> fmt::Result {
        let Ran { steps, ending } = self.0;
        write!(f, "ran {steps} {}", WrittenEnding(ending))
    }
}

// What a call answers that tells nothing but that it was taken.
#[derive(Drop)]
struct WrittenTaken(Result<(), Refusal>);

impl fmt::Display for WrittenTaken {
    fn fmt<W: fmt::Write>(&self, f: &mut fmt::Formatter<W>) -> fmt::Result {
        match self.0 {
            Ok(()) => write!(f, "ok"),
            Err(refusal) => write!(f, "{}", WrittenRefusal(refusal)),
        }
    }
}

// An answer to be written.
#[derive(Drop)]
pub(crate) struct WrittenAnswer<'a>(pub(crate) &'a Answer<Vec<u8>>);

impl fmt::Display for WrittenAnswer<'_> {
    fn fmt<W: fmt::Write>(&self, f: &mut fmt::Formatter<W>) -> fmt::Result {
        match self.0 {
            Answer::Admitted(result)
            | Answer::Loaded(result)
            | Answer::Answered(result)
            | Answer::Restored(result)
            | Answer::Retired(result) => write!(f, "{}", WrittenTaken(*result)),
            Answer::Saved(result, buffer) => {
                let bytes = WrittenBytes(buffer.as_slice());
                write!(f, "{} {bytes}", WrittenTaken(*result))
            }
            Answer::Looked(Ok(word)) => write!(f, "word {}", word.get()),
            Answer::Ran(Ok(ran)) => write!(f, "{}", WrittenRan(*ran)),
            Answer::Told(Ok(told)) => write!(f, "{}", WrittenTold(*told)),
            Answer::Spanned(Ok(span)) => write!(f, "span {} {}", span.lower.0, span.length),
            Answer::FixedAddress(Ok(address)) => write!(f, "at {}", address.0),
            Answer::Looked(Err(refusal))
            | Answer::Ran(Err(refusal))
            | Answer::Told(Err(refusal))
            | Answer::Spanned(Err(refusal))
            | Answer::FixedAddress(Err(refusal)) => write!(f, "{}", WrittenRefusal(*refusal)),
        }
    }
}
