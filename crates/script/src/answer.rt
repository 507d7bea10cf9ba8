// What a statement answers, and how it is written.
ghost use Rattle.std.specs.Prelude.{Some};
ghost use Rattle.script.specs.Transcript.{answer_seen, answer_text};

use std::fmt;
use store::Reply;

// Not an Option of a reply: it is written, and `ok` is an answer too. B is what bytes are given in.
#[derive(Clone, Debug, PartialEq, Eq, Drop)]
pub enum Answer<B> {
    Done,
    Reply(Reply),
    Call(engine::Answer<B>),
}

impl fmt::Display for Answer<Vec<u8>> {
    ghost output = { λ answer. Some (answer_text (answer_seen answer)) };

    fn fmt<W: fmt::Write>(&self, f: &mut fmt::Formatter<W>) -> fmt::Result {
        match self {
            Answer::Done => write!(f, "ok"),
            Answer::Reply(reply) => write!(f, "{reply}"),
            Answer::Call(answer) => write!(f, "{answer}"),
        }
    }
}
