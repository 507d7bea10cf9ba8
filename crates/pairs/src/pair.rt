// A pair of stores.
ghost use Rattle.std.specs.Prelude.{◌≡◌, length};
ghost use Rattle.store.specs.Functions.{Finds};
ghost use Rattle.pairs.specs.Pair.{Lies, rows, row, count_of, place_in, PutsWhole, PutsHalf};
ghost use Rattle.pairs.specs.Law.{pair_bounded};
ghost use Rattle.pairs.specs.Ranged.{pair_ranged};

use crate::place::{Place, Side};
use crate::rule::Rule;
use store::{CellAddress, Fault, Half, Store};
use words::Word;

#[derive(Drop)]
pub struct Pair<F, S> {
    pub rule: Rule,
    pub first: F,
    pub second: S,
}

impl<F: Store, S: Store> Pair<F, S> {
    // Where a cell lies: the pair's cell is the cell at this place.
    fn place(&self, address: CellAddress) -> Result<Place, Fault>
        ensures { Finds (row F.cells S.cells self.now) address.0 (λ p. (p ≡ place_in F.cells self.now address.0) × Lies self.now.rule (rows F.cells S.cells self.now) address.0 p) result }
    {
        if address.0 >= self.count() {
            return Err(Fault::NoCell);
        }
        Ok(self.rule.place(self.first.count(), address))
    }
}

impl<F: Store, S: Store> Store for Pair<F, S> {
    ghost cells = { row F.cells S.cells };

    ghost puts_whole = { PutsWhole F.cells S.cells F.puts_whole S.puts_whole };

    ghost puts_half = { PutsHalf F.cells S.cells F.puts_half S.puts_half };

    ghost bounded = { λ s. pair_bounded s.rule (rows F.cells S.cells s) };

    ghost ranged = { λ s. pair_ranged s.rule (rows F.cells S.cells s) (F.Store.ranged s.first) (S.Store.ranged s.second) };

    #[tactic(auto, using(crate::specs::Law::length_pair))]
    fn count(&self) -> u32
        ensures row { result ≡ length (row F.cells S.cells self.now) }
        ensures rule { result ≡ count_of F.cells S.cells self.now }
    {
        self.rule.count(self.first.count(), self.second.count())
    }

    fn fetch(&self, address: CellAddress) -> Result<Word, Fault> {
        let place = self.place(address)?;
        match place.side {
            Side::First => self.first.fetch(place.address),
            Side::Second => self.second.fetch(place.address),
        }
    }

    #[tactic(auto, using(crate::specs::Law::length_pair))]
    fn put_whole(&mut self, address: CellAddress, word: u32) -> Result<(), Fault> {
        let place = self.place(address)?;
        match place.side {
            Side::First => self.first.put_whole(place.address, word),
            Side::Second => self.second.put_whole(place.address, word),
        }
    }

    #[tactic(auto, using(crate::specs::Law::length_pair))]
    fn put_half(&mut self, address: CellAddress, half: Half, value: u32) -> Result<(), Fault> {
        let place = self.place(address)?;
        match place.side {
            Side::First => self.first.put_half(place.address, half, value),
            Side::Second => self.second.put_half(place.address, half, value),
        }
    }
}
