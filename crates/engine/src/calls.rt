// The calls of an installation.
ghost use Rattle.std.specs.Prelude.{◌≡◌, OnErr, OnOk, Some};
ghost use Rattle.engine.specs.Beneath.{StoreDoes};
ghost use Rattle.engine.specs.Installation.{worker_at};
ghost use Rattle.engine.specs.Installed.{Performs, means};
ghost use Rattle.engine.specs.Laws.{AdmitsBySpans, OnlyItsCells, Restores};
ghost use Rattle.engine.specs.declared.place.Worker.{Worker};
ghost use Rattle.engine.specs.declared.answer.Answer.TheVariants as answer;
ghost use Rattle.engine.specs.declared.call.Call.TheVariants as call;
ghost use Rattle.engine.specs.declared.call.Request.TheVariants as request;

use super::{Installation, Refusal, Span, Terms, Told};
use crate::{admitting, serving};
use processor::{Ran, RelativeAddress};
use store::{CellAddress, Store};
use words::Word;

impl<S: Store> Installation<S> {
    // Makes a worker at a free place. It is ready to run from its entry, and has the words that lie in its cells.
    pub fn admit(&mut self, place: u32, lower: CellAddress, terms: Terms) -> Result<(), Refusal>
        ensures performed { Performs S.cells self.old (call.Admit place lower terms) (answer.Admitted result) self.new }
        ensures refused { OnErr result (self.new ≡ self.old) }
        ensures store { StoreDoes S.puts_whole S.puts_half (means S.cells self.old) (call.Admit place lower terms) self.old.store self.new.store }
        ensures by_spans { AdmitsBySpans (means S.cells self.old) place lower terms (answer.Admitted result) }
    {
        admitting::admit(&self.store, &mut self.places, place, lower, terms)
    }

    // Puts a word of a worker whole.
    pub fn load(&mut self, place: u32, address: RelativeAddress, word: u32) -> Result<(), Refusal>
        ensures performed { Performs S.cells self.old (call.Ask place (request.Load address word)) (answer.Loaded result) self.new }
        ensures refused { OnErr result (self.new ≡ self.old) }
        ensures store { StoreDoes S.puts_whole S.puts_half (means S.cells self.old) (call.Ask place (request.Load address word)) self.old.store self.new.store }
        ensures other_cells { OnlyItsCells (means S.cells self.old) (call.Ask place (request.Load address word)) (means S.cells self.new) }
    {
        serving::load(&mut self.store, &self.places, place, address, word)
    }

    // Tells a word of a worker.
    pub fn look(&self, place: u32, address: RelativeAddress) -> Result<Word, Refusal>
        ensures performed { Performs S.cells self.now (call.Ask place (request.Look address)) (answer.Looked result) self.now }
    {
        serving::look(&self.store, &self.places, place, address)
    }

    // Runs a ready worker; one that is interrupted is held afterwards.
    pub fn run(&mut self, place: u32, budget: u32) -> Result<Ran, Refusal>
        ensures performed { Performs S.cells self.old (call.Ask place (request.Run budget)) (answer.Ran result) self.new }
        ensures refused { OnErr result (self.new ≡ self.old) }
        ensures store { StoreDoes S.puts_whole S.puts_half (means S.cells self.old) (call.Ask place (request.Run budget)) self.old.store self.new.store }
        ensures other_cells { OnlyItsCells (means S.cells self.old) (call.Ask place (request.Run budget)) (means S.cells self.new) }
    {
        serving::run_worker(&mut self.store, &mut self.places, place, budget)
    }

    // Answers a held worker's report: sets A, Q and P, and makes it ready.
    pub fn answer(&mut self, place: u32, a: u32, q: u32, p: u32) -> Result<(), Refusal>
        ensures performed { Performs S.cells self.old (call.Ask place (request.Answer a q p)) (answer.Answered result) self.new }
        ensures refused { OnErr result (self.new ≡ self.old) }
        ensures store { StoreDoes S.puts_whole S.puts_half (means S.cells self.old) (call.Ask place (request.Answer a q p)) self.old.store self.new.store }
    {
        serving::answer(&self.store, &mut self.places, place, a, q, p)
    }

    // Writes a worker's register record at the front of a buffer.
    pub fn save(&self, place: u32, buffer: &mut [u8]) -> Result<(), Refusal>
        ensures performed { Performs S.cells self.now (call.Ask place (request.Save buffer.old)) (answer.Saved result buffer.new) self.now }
        ensures refused { OnErr result (buffer.new ≡ buffer.old) }
        ensures restores { OnOk result ((w : Worker) → worker_at (means S.cells self.now) place ≡ Some w → Restores buffer.new w.registers) }
    {
        serving::save(&self.store, &self.places, place, buffer)
    }

    // Reads a worker's register record, and makes it ready.
    pub fn restore(&mut self, place: u32, bytes: &[u8]) -> Result<(), Refusal>
        ensures performed { Performs S.cells self.old (call.Ask place (request.Restore bytes.now)) (answer.Restored result) self.new }
        ensures refused { OnErr result (self.new ≡ self.old) }
        ensures store { StoreDoes S.puts_whole S.puts_half (means S.cells self.old) (call.Ask place (request.Restore bytes.now)) self.old.store self.new.store }
    {
        serving::restore(&self.store, &mut self.places, place, bytes)
    }

    // Tells a worker's state, a held one's with its report, and its registers.
    pub fn tell(&self, place: u32) -> Result<Told, Refusal>
        ensures performed { Performs S.cells self.now (call.Ask place request.Tell) (answer.Told result) self.now }
    {
        serving::tell(&self.store, &self.places, place)
    }

    // Frees a worker's place; the cells stay.
    pub fn retire(&mut self, place: u32) -> Result<(), Refusal>
        ensures performed { Performs S.cells self.old (call.Retire place) (answer.Retired result) self.new }
        ensures refused { OnErr result (self.new ≡ self.old) }
        ensures store { StoreDoes S.puts_whole S.puts_half (means S.cells self.old) (call.Retire place) self.old.store self.new.store }
    {
        admitting::retire(&self.store, &mut self.places, place)
    }

    // Tells where a worker lies.
    pub fn span(&self, place: u32) -> Result<Span, Refusal>
        ensures performed { Performs S.cells self.now (call.Span place) (answer.Spanned result) self.now }
    {
        admitting::span(&self.store, &self.places, place)
    }
}
