// The installation of a script, over the memories that it made.
ghost use Rattle.std.specs.Prelude.{◌≡◌, vec_items};
ghost use Rattle.engine.specs.Bytes.{answer_with, call_with};
ghost use Rattle.engine.specs.Installation.{made};
ghost use Rattle.engine.specs.Performing.{performed};
ghost use Rattle.memories.specs.Any.{row_of};
ghost use Rattle.script.specs.Stage.{installation_of};

use engine::{Answer, Call, Installation};
use memories::{AnyStore, Bank, Setup};
use pairs::Pair;
use stores::{ParityStore, WordStore};

// By the kind of its store, so that a call asks once which kind it is, and not at every cell.
#[derive(Drop)]
pub(crate) enum AnyInstallation {
    Word(Installation<WordStore>),
    Parity(Installation<ParityStore>),
    Pair(Installation<Pair<Bank, Bank>>),
}

impl AnyInstallation {
    pub(crate) fn over(setup: Setup) -> AnyInstallation
        ensures { installation_of result ≡ made (row_of setup) }
    {
        match setup.into_store() {
            AnyStore::Single(Bank::Word(store)) => AnyInstallation::Word(Installation::new(store)),
            AnyStore::Single(Bank::Parity(store)) => {
                AnyInstallation::Parity(Installation::new(store))
            }
            AnyStore::Pair(pair) => AnyInstallation::Pair(Installation::new(pair)),
        }
    }

    pub(crate) fn perform(&mut self, call: Call<Vec<u8>>) -> Answer<Vec<u8>>
        ensures answer { answer_with vec_items result ≡ (performed (installation_of self.old) (call_with vec_items call)).answer }
        ensures after { installation_of self.new ≡ (performed (installation_of self.old) (call_with vec_items call)).installation }
    {
        match self {
            AnyInstallation::Word(installation) => installation.perform(call),
            AnyInstallation::Parity(installation) => installation.perform(call),
            AnyInstallation::Pair(installation) => installation.perform(call),
        }
    }
}
