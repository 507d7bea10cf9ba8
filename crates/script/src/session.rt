// What statements do: the console's memories, made by the first of them, and the installation over them.
ghost use Rattle.std.specs.Prelude.{◌≡◌, if◌then◌else◌, IsTrue, Ok, vec_items};
ghost use Rattle.std.specs.Option.{option_map};
ghost use Rattle.script.specs.declared.answer.Answer.TheVariants.{Done};
ghost use Rattle.script.specs.Line.{texts};
ghost use Rattle.script.specs.Failure.{Gives, Leaves, ran_out};
ghost use Rattle.script.specs.Play.{said_by, left_by, line_played, line_left, ReadsAgain};
ghost use Rattle.script.specs.Session.{nothing, answered, left};
ghost use Rattle.script.specs.Statement.{statement_seen};
ghost use Rattle.script.specs.Transcript.{answer_seen};

use crate::answer::Answer;
use crate::failure::Failure;
use crate::line::split_words;
use crate::problem::Problem;
use crate::reason::Reason;
use crate::stage::Stage;
use crate::statement::{Statement, read_statement};
use crate::transcript::write_line;
use std::alloc::Global;
use std::marker::Model;

// The heap comes with each call: as a field it would be asked of whoever calls `new`.
#[derive(Drop)]
pub struct Session {
    stage: Stage,
}

// A session is the numbers of its memories, if it has any yet, or its installation.
impl Model for Session {
    ghost use Rattle.script.specs.Session.{State};

    ghost Value = { State };

    ghost use Rattle.script.specs.Stage.{state_of};

    ghost view = { λ session. state_of session.stage };
}

impl Session {
    // A session with no memory yet.
    pub fn new() -> Session
        ensures { result ≡ nothing }
    {
        Session {
            stage: Stage::Nothing,
        }
    }

    // Does a statement. Memory can run out only for a new memory, and then everything stays.
    pub fn perform(
        &mut self,
        heap: Global,
        statement: Statement<Vec<u8>>,
    ) -> Result<Answer<Vec<u8>>, Failure<Reason>>
        ensures answer { Gives answer_seen result (answered self.old (statement_seen statement)) }
        ensures out_of_memory { IsTrue (ran_out result) → (self.old ≡ nothing) × (answered nothing (statement_seen statement) ≡ Ok Done) }
        ensures after { self.new ≡ (if ran_out result then self.old else left self.old (statement_seen statement)) }
    {
        self.stage.perform(heap, statement)
    }

    // Plays the `number`th line of a script: the transcript's line, or nothing where it has no words.
    #[tactic(auto, using(crate::proofs::Spaced::reads_again, crate::proofs::Texts::length_texts), unfolding(crate::specs::Play::line_played, crate::specs::Play::line_left))]
    pub fn play_line(
        &mut self,
        heap: Global,
        number: u64,
        line: &[u8],
    ) -> Result<Option<Vec<u8>>, Failure<Problem>>
        ensures answer { Gives (option_map vec_items) result (line_played self.old number line.now) }
        ensures after { Leaves result self.old (line_left self.old line.now) self.new }
        ensures reads_again { ReadsAgain line.now }
    {
        let words = split_words(heap, line)?;
        if words.is_empty() {
            return Ok(None);
        }
        let text = self
            .play_words(heap, words.as_slice())
            .map_err(|failure| failure.at_line(number))?;
        Ok(Some(text))
    }

    // Does the statement that words make, and writes the transcript's line.
    #[tactic(auto, unfolding(crate::specs::Play::said_by, crate::specs::Play::left_by))]
    fn play_words(&mut self, heap: Global, words: &[&[u8]]) -> Result<Vec<u8>, Failure<Reason>>
        ensures answer { Gives vec_items result (said_by self.old (texts words.now)) }
        ensures after { Leaves result self.old (left_by self.old (texts words.now)) self.new }
    {
        let statement = read_statement(heap, words)?;
        match self.perform(heap, statement) {
            Ok(answer) => Ok(write_line(heap, words, &answer)?),
            // Not `?`: the checker's plan for it does not find the module of `Word`, which it calls a fault of its own.
            Err(failure) => Err(failure),
        }
    }
}
