// What a session has: nothing yet, memories, or an installation over them; and what a statement makes of that.
ghost use Rattle.std.specs.Prelude.{◌≡◌, if◌then◌else◌, IsTrue, Ok, Err, false};
ghost use Rattle.script.specs.declared.answer.Answer.TheVariants.{Done};
ghost use Rattle.script.specs.declared.reason.Reason.TheVariants.{OutOfRange};
ghost use Rattle.script.specs.Failure.{Gives, ran_out};
ghost use Rattle.engine.specs.Installation.{Installation, made};
ghost use Rattle.memories.specs.Any.{Memories, row_of};
ghost use Rattle.memories.specs.Setup.{can_damage, damaged};
ghost use Rattle.script.specs.Session.{nothing, with_memories, installed, answered, left, answered_before, left_before, answered_in, left_of};
ghost use Rattle.script.specs.Stage.{installation_of, state_of};
ghost use Rattle.script.specs.Statement.{statement_seen};
ghost use Rattle.script.specs.Transcript.{answer_seen};

use crate::answer::Answer;
use crate::failure::Failure;
use crate::installed::AnyInstallation;
use crate::reason::Reason;
use crate::statement::Statement;
use memories::{Setup, Side};
use std::alloc::Global;
use std::mem;

#[derive(Drop)]
pub(crate) enum Stage {
    Nothing,
    Memories(Setup),
    Installed(AnyInstallation),
}

type Outcome = Result<Answer<Vec<u8>>, Failure<Reason>>;

impl Stage {
    // Does a statement, in place: an installation is large to move. Memory can run out only for a new memory, and then everything stays.
    pub(crate) fn perform(&mut self, heap: Global, statement: Statement<Vec<u8>>) -> Outcome
        ensures answer { Gives answer_seen result (answered (state_of self.old) (statement_seen statement)) }
        ensures out_of_memory { IsTrue (ran_out result) → (state_of self.old ≡ nothing) × (answered nothing (statement_seen statement) ≡ Ok Done) }
        ensures after { state_of self.new ≡ (if ran_out result then state_of self.old else left (state_of self.old) (statement_seen statement)) }
    {
        match self {
            Stage::Nothing => self.begin(heap, statement),
            // Once there is a memory, all but another `memory` and calls can be done.
            Stage::Memories(setup) => match statement {
                Statement::Memory(_) => Err(Reason::SecondMemory.into()),
                Statement::Raw { side, index, value } => damage(setup, side, index, value),
                Statement::Operation(operation) => Ok(Answer::Reply(setup.perform(operation))),
                Statement::Install => self.install(),
                Statement::Call(_) => Err(Reason::NoInstallation.into()),
            },
            Stage::Installed(installation) => perform_call(installation, statement),
        }
    }

    // Before there is a memory, only `memory` can be done.
    fn begin(&mut self, heap: Global, statement: Statement<Vec<u8>>) -> Outcome
        requires { state_of self.old ≡ nothing }
        ensures answer { Gives answer_seen result (answered_before (statement_seen statement)) }
        ensures out_of_memory { IsTrue (ran_out result) → answered_before (statement_seen statement) ≡ Ok Done }
        ensures after { state_of self.new ≡ (if ran_out result then nothing else left_before (statement_seen statement)) }
    {
        match statement {
            Statement::Memory(layout) => {
                *self = Stage::Memories(Setup::new(heap, layout)?);
                Ok(Answer::Done)
            }
            Statement::Raw { .. } | Statement::Operation(_) | Statement::Install => {
                Err(Reason::NoMemory.into())
            }
            Statement::Call(_) => Err(Reason::NoInstallation.into()),
        }
    }

    // Makes an installation over the memories; another stage stays.
    fn install(&mut self) -> Outcome
        ensures answer { result ≡ Ok Done }
        ensures after { (ms : Memories) → state_of self.old ≡ with_memories ms → state_of self.new ≡ installed (made (row_of ms)) }
        ensures stays_empty { state_of self.old ≡ nothing → state_of self.new ≡ nothing }
        ensures stays_installed { (i : Installation) → state_of self.old ≡ installed i → state_of self.new ≡ installed i }
    {
        *self = match mem::replace(self, Stage::Nothing) {
            Stage::Memories(setup) => Stage::Installed(AnyInstallation::over(setup)),
            stage => stage,
        };
        Ok(Answer::Done)
    }
}

// Damages a memory, if it has such a number.
fn damage(setup: &mut Setup, side: Side, index: u32, value: u32) -> Outcome
    ensures answer { Gives answer_seen result (if can_damage setup.old side index value then Ok Done else Err OutOfRange) }
    ensures out_of_memory { ran_out result ≡ false }
    ensures after { setup.new ≡ (if can_damage setup.old side index value then damaged setup.old side index value else setup.old) }
{
    match setup.replace_number(side, index, value) {
        Ok(()) => Ok(Answer::Done),
        Err(error) => Err(Reason::from(error).into()),
    }
}

// Once there is an installation, only calls can be done.
fn perform_call(installation: &mut AnyInstallation, statement: Statement<Vec<u8>>) -> Outcome
    ensures answer { Gives answer_seen result (answered_in (installation_of installation.old) (statement_seen statement)) }
    ensures out_of_memory { ran_out result ≡ false }
    ensures after { installation_of installation.new ≡ left_of (installation_of installation.old) (statement_seen statement) }
{
    match statement {
        Statement::Call(call) => Ok(Answer::Call(installation.perform(call))),
        _ => Err(Reason::Installed.into()),
    }
}
