// A line of the transcript.
ghost use Rattle.std.specs.Prelude.{◌≡◌, IfOk};
ghost use Rattle.script.specs.Line.{texts};
ghost use Rattle.script.specs.Transcript.{answer_seen, line_text};

use crate::answer::Answer;
use std::alloc::{AllocError, Global};

// The words of a statement with a space after each, an arrow, and the answer.
#[tactic(auto, using(crate::proofs::Spaced::spaced_none, crate::proofs::Spaced::spaced_more, crate::proofs::Spaced::spaced_all))]
pub(crate) fn write_line(
    heap: Global,
    words: &[&[u8]],
    answer: &Answer<Vec<u8>>,
) -> Result<Vec<u8>, AllocError>
    ensures { IfOk result (λ v. v.items ≡ line_text (texts words.now) (answer_seen answer.now)) }
{
    let mut text = Vec::new(heap);
    // A loop, since words are bytes and no text that a `join` or a `write!` takes.
    for word in words {
        text.extend_from_slice(word)?;
        text.push(b' ')?;
    }
    let answer = format!(in heap; "-> {answer}")?;
    text.extend_from_slice(answer.as_bytes())?;
    Ok(text)
}
