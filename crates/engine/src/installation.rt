// An installation owns its store: no other way leads to it while it does.
ghost use Rattle.std.specs.Prelude.{◌≡◌, replicate};
ghost use Rattle.engine.specs.Installation.{made};
ghost use Rattle.engine.specs.Installed.{means};
ghost use Rattle.engine.specs.Isolation.{Isolation};
ghost use Rattle.engine.specs.Laws.{NoCellIsShared, NoReportOfNoCell, NoRunEndsInNoCell, RegistersFit, RowKeepsLength, WordsBelowLength, WorkersLieInRow};

use super::Place;
use std::marker::Model;
use store::Store;

// One store, and places for eight workers in it.
#[derive(Drop)]
pub struct Installation<S: Store> {
    pub(crate) store: S,
    pub(crate) places: [Place; 8],
}

impl<S: Store> Model for Installation<S> {
    ghost use Rattle.engine.specs.Installed.{Installed, means};
    ghost use Rattle.engine.specs.Sound.{Sound};

    ghost Value = { Installed S };

    ghost view = { λ i. record { store = i.store; places = i.places } };

    ghost invariant = { λ i. Sound (means S.cells (record { store = i.store; places = i.places })) };
}

impl<S: Store> Installation<S> {
    // A new one: all places are free. What else is promised is of all that can come after: any calls, one after another.
    pub fn new(store: S) -> Self
        ensures made { means S.cells result ≡ made (S.cells store) }
        ensures store { result.store ≡ store }
        ensures apart { NoCellIsShared (S.cells store) }
        ensures inside { WorkersLieInRow (S.cells store) }
        ensures length { RowKeepsLength (S.cells store) }
        ensures widths { RegistersFit (S.cells store) }
        ensures held { NoReportOfNoCell (S.cells store) }
        ensures ran { NoRunEndsInNoCell (S.cells store) }
        ensures addressed { WordsBelowLength (S.cells store) }
        ensures isolation { Isolation S.cells S.cells }
    {
        Installation {
            store,
            places: [Place::Free; 8],
        }
    }

    // Gives its store back.
    pub fn into_store(self) -> S
        ensures { result ≡ self.store }
    {
        self.store
    }
}
