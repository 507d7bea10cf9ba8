// Admitting a worker, retiring it, and its span.
ghost use Rattle.std.specs.Prelude.{◌≡◌, ◌≤◌, ◌+◌, ◌&&◌, IfOk, OnErr, Ok, true, length, if◌then◌else◌, nat_le, nat_lt, not};
ghost use Rattle.engine.specs.Admission.{overlaps_any, shares};
ghost use Rattle.engine.specs.Installation.{worker_of};
ghost use Rattle.engine.specs.Installed.{Performs};
ghost use Rattle.engine.specs.declared.answer.Answer.TheVariants as answer;
ghost use Rattle.engine.specs.declared.call.Call.TheVariants as call;

use super::serving::place_numbered;
use super::{Place, Refusal, Span, Terms, Worker};
use processor::{Limits, MOST_WORDS};
use records::Registers;
use store::{CellAddress, Store};

impl Place {
    // Have these limits a cell in common with its worker?
    fn shares(&self, limits: Limits) -> bool
        ensures { result ≡ shares limits (worker_of self.now) }
    {
        match self {
            Place::Free => false,
            Place::Ready(worker) | Place::Held(worker, _) => worker.limits.overlap(limits),
        }
    }
}

// Limits for so many words in a store.
fn limits_in_store<S: Store>(store: &S, lower: CellAddress, number: u32) -> Result<Limits, Refusal>
    ensures value { result ≡ (if nat_le 1 number && nat_le number 32768 then (if nat_le (lower.0 + number) (length (S.cells store.now)) then Ok (record { lower = lower.0; length = number }) else Err Refusal.PastStore) else Err Refusal.BadLength) }
    ensures found { IfOk result (λ limits. (limits ≡ record { lower = lower.0; length = number }) × ((nat_le 1 number && nat_le number 32768) ≡ true) × (nat_le (lower.0 + number) (length (S.cells store.now)) ≡ true)) }
{
    if number == 0 || number > MOST_WORDS {
        return Err(Refusal::BadLength);
    }
    let limits = Limits::new(lower, number).ok_or(Refusal::PastStore)?;
    if limits.end() > store.count() {
        return Err(Refusal::PastStore);
    }
    Ok(limits)
}

// Have these limits a cell in common with some worker?
fn is_shared(places: &[Place; 8], limits: Limits) -> bool
    ensures { result ≡ overlaps_any limits places.now }
{
    places.iter().any(|place| place.shares(limits))
}

// Makes a worker that is ready to run from its entry.
#[tactic(auto, unfolding(crate::specs::Performing::performed))]
pub(crate) fn admit<S: Store>(
    store: &S,
    places: &mut [Place; 8],
    place: u32,
    lower: CellAddress,
    terms: Terms,
) -> Result<(), Refusal>
    ensures performed { Performs S.cells (record { store = store.now; places = places.old }) (call.Admit place lower terms) (answer.Admitted result) (record { store = store.now; places = places.new }) }
    ensures refused { OnErr result (places.new ≡ places.old) }
{
    match place_numbered(places, place)? {
        Place::Ready(_) | Place::Held(..) => Err(Refusal::PlaceOccupied),
        Place::Free => {
            let limits = limits_in_store(store, lower, terms.length)?;
            if is_shared(places, limits) {
                return Err(Refusal::CellShared);
            }
            if terms.entry.0 >= terms.length {
                return Err(Refusal::EntryPastLength);
            }
            places[place as usize] = Place::Ready(Worker {
                limits,
                registers: Registers::starting_at(terms.entry.0),
            });
            Ok(())
        }
    }
}

// Frees the place; the cells stay.
#[tactic(auto, unfolding(crate::specs::Performing::performed))]
pub(crate) fn retire<S: Store>(
    store: &S,
    places: &mut [Place; 8],
    place: u32,
) -> Result<(), Refusal>
    ensures performed { Performs S.cells (record { store = store.now; places = places.old }) (call.Retire place) (answer.Retired result) (record { store = store.now; places = places.new }) }
    ensures refused { OnErr result (places.new ≡ places.old) }
{
    match place_numbered(places, place)? {
        Place::Free => Err(Refusal::PlaceFree),
        Place::Ready(_) | Place::Held(..) => {
            places[place as usize] = Place::Free;
            Ok(())
        }
    }
}

// Tells the lower limit and the length.
#[tactic(auto, unfolding(crate::specs::Performing::performed))]
pub(crate) fn span<S: Store>(store: &S, places: &[Place; 8], place: u32) -> Result<Span, Refusal>
    ensures performed { Performs S.cells (record { store = store.now; places = places.now }) (call.Span place) (answer.Spanned result) (record { store = store.now; places = places.now }) }
{
    match place_numbered(places, place)? {
        Place::Free => Err(Refusal::PlaceFree),
        Place::Ready(worker) | Place::Held(worker, _) => Ok(Span {
            lower: worker.limits.lower(),
            length: worker.limits.length(),
        }),
    }
}
