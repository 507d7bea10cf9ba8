// Refusals and what calls answer as text.
ghost use Rattle.std.specs.Prelude.{Some, vec_items};
ghost use Rattle.engine.specs.Bytes.{answer_with};
ghost use Rattle.engine.specs.Text.{answer_text, bytes_text, refusal_text, span_text, told_text};

use super::{Answer, Refusal, Span, State, Told};
use std::error::Error;
use std::fmt;
use store::CellAddress;

impl fmt::Display for Refusal {
    ghost output = { λ refusal. Some (refusal_text refusal) };

    fn fmt<W: fmt::Write>(&self, f: &mut fmt::Formatter<W>) -> fmt::Result {
        let number = self.number();
        match self {
            Refusal::FieldTooWide(offset) => write!(f, "refused {number}, offset {offset}"),
            Refusal::Spoiled(half) => write!(f, "refused {number}, {half}"),
            _ => write!(f, "refused {number}"),
        }
    }
}

impl Error for Refusal {}

impl fmt::Display for Told {
    ghost output = { λ told. Some (told_text told) };

    fn fmt<W: fmt::Write>(&self, f: &mut fmt::Formatter<W>) -> fmt::Result {
        let Told { state, registers } = self;
        match state {
            State::Ready => write!(f, "ready, {registers}"),
            State::Held(report) => write!(f, "held, {registers}, {report}"),
        }
    }
}

impl fmt::Display for Span {
    ghost output = { λ span. Some (span_text span) };

    fn fmt<W: fmt::Write>(&self, f: &mut fmt::Formatter<W>) -> fmt::Result {
        let Span {
            lower: CellAddress(lower),
            length,
        } = self;
        write!(f, "lower {lower}, length {length}")
    }
}

// Bytes, each as two hexadecimal digits.
#[derive(Drop)]
struct Hexadecimal<'a>(&'a [u8]);

impl fmt::Display for Hexadecimal<'_> {
    ghost output = { λ bytes. Some (bytes_text bytes.0.now) };

    fn fmt<W: fmt::Write>(&self, f: &mut fmt::Formatter<W>) -> fmt::Result {
        for &byte in self.0 {
            write!(f, "{byte:02x}")?;
        }
        Ok(())
    }
}

// A refused save's buffer is not written.
impl fmt::Display for Answer<Vec<u8>> {
    ghost output = { λ answer. Some (answer_text (answer_with vec_items answer)) };

    #[tactic(auto, using(crate::proofs::Written::padded_address))]
    fn fmt<W: fmt::Write>(&self, f: &mut fmt::Formatter<W>) -> fmt::Result {
        match self {
            Answer::Admitted(Ok(()))
            | Answer::Loaded(Ok(()))
            | Answer::Answered(Ok(()))
            | Answer::Restored(Ok(()))
            | Answer::Retired(Ok(())) => write!(f, "taken"),
            Answer::Looked(Ok(word)) => write!(f, "{word}"),
            Answer::Ran(Ok(ran)) => write!(f, "{ran}"),
            Answer::Saved(Ok(()), buffer) => {
                let bytes = Hexadecimal(buffer.as_slice());
                write!(f, "{bytes}")
            }
            Answer::Told(Ok(told)) => write!(f, "{told}"),
            Answer::Spanned(Ok(span)) => write!(f, "{span}"),
            Answer::FixedAddress(Ok(CellAddress(address))) => write!(f, "{address:02o}"),
            Answer::Admitted(Err(refusal))
            | Answer::Loaded(Err(refusal))
            | Answer::Looked(Err(refusal))
            | Answer::Ran(Err(refusal))
            | Answer::Answered(Err(refusal))
            | Answer::Saved(Err(refusal), _)
            | Answer::Restored(Err(refusal))
            | Answer::Told(Err(refusal))
            | Answer::Retired(Err(refusal))
            | Answer::Spanned(Err(refusal))
            | Answer::FixedAddress(Err(refusal)) => write!(f, "{refusal}"),
        }
    }
}
