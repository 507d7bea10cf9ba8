// A whole script.
ghost use Rattle.std.specs.Prelude.{◌≡◌, ◌==◌, IfOk, vec_items, OnOk};
ghost use Rattle.std.specs.Option.{option_map};
ghost use Rattle.std.specs.List.{slice_split};
ghost use Rattle.script.specs.Replay.{AnswersAreReplay};
ghost use Rattle.script.specs.Session.{nothing};
ghost use Rattle.script.specs.Script.{Tells, grown, told_by, lines_played, script_played, TranscriptStays};

use crate::failure::Failure;
use crate::problem::Problem;
use crate::session::Session;
use std::alloc::{AllocError, Global};

// What a script comes to: the transcript up to its end or its first bad line, and what is wrong with that. Not a Result: a script with a bad line has a transcript too.
#[derive(Drop)]
pub struct Played {
    pub transcript: Vec<u8>,
    pub problem: Option<Problem>,
}

// Adds a line to the transcript, if there is one.
fn extend(transcript: &mut Vec<u8>, text: Option<Vec<u8>>) -> Result<(), AllocError>
    ensures { OnOk result (transcript.new.items ≡ grown transcript.old.items (option_map vec_items text)) }
{
    if let Some(text) = text {
        transcript.extend_from_slice(text.as_slice())?;
        transcript.push(b'\n')?;
    }
    Ok(())
}

// Plays the parts of a script between its line feeds, and adds their lines to the transcript. An empty part after the last line feed plays as nothing.
fn play_lines(heap: Global, transcript: &mut Vec<u8>, script: &[u8]) -> Result<(), Failure<Problem>>
    ensures { Tells transcript.new.items result (lines_played transcript.old.items nothing 1 (slice_split (λ byte. byte == 10) script.now)) }
{
    let mut session = Session::new();
    // Not a zip with `1..`: no lemma says what an open range yields, and the loop's goals stay open. A usize has no From into a u64.
    for (index, line) in script.split(|byte| *byte == b'\n').enumerate() {
        let text = session.play_line(heap, index as u64 + 1, line)?;
        extend(transcript, text)?;
    }
    Ok(())
}

// Plays a script from nothing.
#[tactic(auto, using(crate::proofs::Later::transcript_stays, crate::proofs::Lines::parts_play, crate::proofs::Replayed::answers_are_replay))]
pub fn play(heap: Global, script: &[u8]) -> Result<Played, AllocError>
    ensures outcome { IfOk result (λ p. told_by p ≡ script_played script.now) }
    ensures stays { TranscriptStays script.now }
    ensures replay { AnswersAreReplay script.now }
{
    let mut transcript = Vec::new(heap);
    let problem = match play_lines(heap, &mut transcript, script) {
        Ok(()) => None,
        Err(Failure::Wrong(problem)) => Some(problem),
        Err(Failure::OutOfMemory(error)) => return Err(error),
    };
    Ok(Played {
        transcript,
        problem,
    })
}
