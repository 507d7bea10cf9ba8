// Lists of calls.
ghost use Rattle.std.specs.Prelude.{◌≡◌, ◌+◌, ◌≤◌, ◌++◌, vec_len, vec_capacity, IfErr, IfOk, OnErr, OnOk};
ghost use Rattle.engine.specs.Beneath.{StoreDoesAll};
ghost use Rattle.engine.specs.Bytes.{asked, given};
ghost use Rattle.engine.specs.Exchanges.{after, answers_in, exchanges};
ghost use Rattle.engine.specs.Installation.{made};
ghost use Rattle.engine.specs.Installed.{means};
ghost use Rattle.engine.specs.Isolation.{Isolates, Isolation, history};
ghost use Rattle.engine.specs.Replayed.{returned, Replays};

use super::{Answer, Call, Installation};
use std::alloc::{AllocError, Global};
use store::Store;

impl<S: Store> Installation<S> {
    // Does calls one after another, and adds their answers.
    #[tactic(auto, unfolding(crate::specs::Beneath::StoreDoesAll, crate::specs::Exchanges::exchanges, crate::specs::Exchanges::after))]
    fn replay_into(&mut self, answers: &mut Vec<Answer<Vec<u8>>>, calls: Vec<Call<Vec<u8>>>)
        requires { vec_len answers.old + vec_len calls ≤ vec_capacity answers.old }
        ensures answers { given answers.new ≡ given answers.old ++ answers_in (exchanges (means S.cells self.old) (asked calls)) }
        ensures after { means S.cells self.new ≡ after (means S.cells self.old) (asked calls) }
        ensures store { StoreDoesAll S.cells S.puts_whole S.puts_half (means S.cells self.old) (asked calls) self.old.store self.new.store }
    {
        for call in calls {
            answers.push_reserved(self.perform(call));
        }
    }

    // Does calls one after another. Where there is no memory for their answers none is done.
    pub fn replay(
        &mut self,
        heap: Global,
        calls: Vec<Call<Vec<u8>>>,
    ) -> Result<Vec<Answer<Vec<u8>>>, AllocError>
        ensures answers { IfOk result (λ answers. given answers ≡ answers_in (exchanges (means S.cells self.old) (asked calls))) }
        ensures after { OnOk result (means S.cells self.new ≡ after (means S.cells self.old) (asked calls)) }
        ensures store { OnOk result (StoreDoesAll S.cells S.puts_whole S.puts_half (means S.cells self.old) (asked calls) self.old.store self.new.store) }
        ensures out_of_memory { OnErr result (self.new ≡ self.old) }
    {
        let mut answers = Vec::with_capacity(heap, calls.len())?;
        self.replay_into(&mut answers, calls);
        Ok(answers)
    }
}

// What came of calls on a new installation: their answers, and the installation after the last.
#[derive(Drop)]
pub struct Replayed<S: Store> {
    pub answers: Vec<Answer<Vec<u8>>>,
    pub installation: Installation<S>,
}

// There was no memory for the answers, and the two stores are as they were.
#[derive(Drop)]
pub struct OutOfMemory<S, T> {
    pub error: AllocError,
    pub first: S,
    pub second: T,
}

// Makes an installation over a store, and does calls on it one after another.
fn replay_new<S: Store>(
    store: S,
    calls: Vec<Call<Vec<u8>>>,
    room: Vec<Answer<Vec<u8>>>,
) -> Replayed<S>
    requires room { vec_len calls ≤ vec_capacity room }
    requires empty { vec_len room ≡ 0 }
    ensures { Replays S.cells S.puts_whole S.puts_half store calls result }
{
    let mut installation = Installation::new(store);
    let mut answers = room;
    installation.replay_into(&mut answers, calls);
    Replayed {
        answers,
        installation,
    }
}

// Room for so many answers, and for so many more.
fn make_room(
    heap: Global,
    first: usize,
    second: usize,
) -> Result<(Vec<Answer<Vec<u8>>>, Vec<Answer<Vec<u8>>>), AllocError>
    ensures first { IfOk result (λ room. (vec_len room.0 ≡ 0) × (first ≤ vec_capacity room.0)) }
    ensures second { IfOk result (λ room. (vec_len room.1 ≡ 0) × (second ≤ vec_capacity room.1)) }
{
    Ok((
        Vec::with_capacity(heap, first)?,
        Vec::with_capacity(heap, second)?,
    ))
}

// Makes two installations over two stores, and does a list of calls on each. Where there is no memory for the answers it gives the stores back.
pub fn replay_both<S: Store, T: Store>(
    heap: Global,
    first: S,
    first_calls: Vec<Call<Vec<u8>>>,
    second: T,
    second_calls: Vec<Call<Vec<u8>>>,
) -> Result<(Replayed<S>, Replayed<T>), OutOfMemory<S, T>>
    ensures first { IfOk result (λ both. Replays S.cells S.puts_whole S.puts_half first first_calls both.0) }
    ensures second { IfOk result (λ both. Replays T.cells T.puts_whole T.puts_half second second_calls both.1) }
    ensures isolation { Isolation S.cells T.cells }
    ensures histories { IfOk result (λ both. (returned S.cells first first_calls both.0 ≡ history (S.cells first) (asked first_calls)) × (returned T.cells second second_calls both.1 ≡ history (T.cells second) (asked second_calls))) }
    ensures isolated { IfOk result (λ both. Isolates (returned S.cells first first_calls both.0) (returned T.cells second second_calls both.1)) }
    ensures out_of_memory { IfErr result (λ lost. (lost.first ≡ first) × (lost.second ≡ second)) }
{
    match make_room(heap, first_calls.len(), second_calls.len()) {
        Ok((first_room, second_room)) => Ok((
            replay_new(first, first_calls, first_room),
            replay_new(second, second_calls, second_room),
        )),
        Err(error) => Err(OutOfMemory {
            error,
            first,
            second,
        }),
    }
}
