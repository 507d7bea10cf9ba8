// Calls as values.
ghost use Rattle.std.specs.Prelude.{◌≡◌, Some, vec_items};
ghost use Rattle.engine.specs.Beneath.{StoreDoes};
ghost use Rattle.engine.specs.Bytes.{answer_with, call_with, request_with};
ghost use Rattle.engine.specs.Installed.{Performs, means};
ghost use Rattle.engine.specs.Laws.{OnlyItsCells, RefusedLeavesAll, SavedRestores};
ghost use Rattle.engine.specs.Refusals.{refusal_of};
ghost use Rattle.engine.specs.Sound.{Sound};
ghost use Rattle.engine.specs.declared.refusal.Refusal.{Refusal};
ghost use Rattle.engine.specs.declared.call.Call.TheVariants as call;

use super::{Answer, Call, Installation, Request, fixed_address};
use store::Store;

impl<S: Store> Installation<S> {
    // Does a call. The buffer of a save is handed on in its answer.
    pub fn perform(&mut self, call: Call<Vec<u8>>) -> Answer<Vec<u8>>
        ensures performed { Performs S.cells self.old (call_with vec_items call) (answer_with vec_items result) self.new }
        ensures refused { RefusedLeavesAll (call_with vec_items call) (answer_with vec_items result) self.old self.new }
        ensures other_cells { OnlyItsCells (means S.cells self.old) (call_with vec_items call) (means S.cells self.new) }
        ensures sound { Sound (means S.cells self.new) }
        ensures restores { SavedRestores (means S.cells self.old) (call_with vec_items call) (answer_with vec_items result) }
        ensures store { StoreDoes S.puts_whole S.puts_half (means S.cells self.old) (call_with vec_items call) self.old.store self.new.store }
    {
        self.dispatch(call)
    }

    #[tactic(auto, using(crate::proofs::Lawful::on_refusal))]
    fn dispatch(&mut self, call: Call<Vec<u8>>) -> Answer<Vec<u8>>
        ensures performed { Performs S.cells self.old (call_with vec_items call) (answer_with vec_items result) self.new }
        ensures refused { (e : Refusal) → refusal_of (answer_with vec_items result) ≡ Some e → self.new ≡ self.old }
        ensures sound { Sound (means S.cells self.old) }
        ensures restores { SavedRestores (means S.cells self.old) (call_with vec_items call) (answer_with vec_items result) }
        ensures store { StoreDoes S.puts_whole S.puts_half (means S.cells self.old) (call_with vec_items call) self.old.store self.new.store }
    {
        // Opens the installation, so that the proof learns what holds of every one.
        let _ = &self.places;
        match call {
            Call::Admit {
                place,
                lower,
                terms,
            } => Answer::Admitted(self.admit(place, lower, terms)),
            Call::Ask { place, request } => self.ask(place, request),
            Call::Retire { place } => Answer::Retired(self.retire(place)),
            Call::Span { place } => Answer::Spanned(self.span(place)),
            Call::FixedAddress { cause, address } => {
                Answer::FixedAddress(fixed_address(cause, address))
            }
        }
    }

    #[tactic(auto, using(crate::proofs::Lawful::on_refusal))]
    fn ask(&mut self, place: u32, request: Request<Vec<u8>>) -> Answer<Vec<u8>>
        ensures performed { Performs S.cells self.old (call.Ask place (request_with vec_items request)) (answer_with vec_items result) self.new }
        ensures restores { SavedRestores (means S.cells self.old) (call.Ask place (request_with vec_items request)) (answer_with vec_items result) }
        ensures refused { (e : Refusal) → refusal_of (answer_with vec_items result) ≡ Some e → self.new ≡ self.old }
        ensures store { StoreDoes S.puts_whole S.puts_half (means S.cells self.old) (call.Ask place (request_with vec_items request)) self.old.store self.new.store }
    {
        match request {
            Request::Load { address, word } => Answer::Loaded(self.load(place, address, word)),
            Request::Look { address } => Answer::Looked(self.look(place, address)),
            Request::Run { budget } => Answer::Ran(self.run(place, budget)),
            Request::Answer { a, q, p } => Answer::Answered(self.answer(place, a, q, p)),
            Request::Save { mut buffer } => {
                let saved = self.save(place, buffer.as_mut_slice());
                Answer::Saved(saved, buffer)
            }
            Request::Restore { bytes } => Answer::Restored(self.restore(place, bytes.as_slice())),
            Request::Tell => Answer::Told(self.tell(place)),
        }
    }
}
