// What is asked of a worker.
ghost use Rattle.std.specs.Prelude.{◌≡◌, ◌≤◌, ◌^◌, ◌&&◌, IfOk, IsTrue, OnErr, OnOk, Ok, Some, if◌then◌else◌, nat_le, nat_lt};
ghost use Rattle.engine.specs.Beneath.{StoreDoes};
ghost use Rattle.engine.specs.Installation.{place_at, worker_of};
ghost use Rattle.engine.specs.Installed.{Performs};
ghost use Rattle.engine.specs.declared.place.Worker.{Worker};
ghost use Rattle.records.specs.Record.{record_read};
ghost use Rattle.engine.specs.declared.answer.Answer.TheVariants as answer;
ghost use Rattle.engine.specs.declared.call.Call.TheVariants as call;
ghost use Rattle.engine.specs.declared.call.Request.TheVariants as request;

use super::{Place, Refusal, State, Told, Worker};
use processor::{Ending, Ran, RelativeAddress, run};
use records::Registers;
use store::Store;
use words::{Word, word_bits};

// The most steps of one run.
const MOST_STEPS: u32 = 1_000_000;

// The place with this number.
pub(crate) fn place_numbered(places: &[Place; 8], place: u32) -> Result<Place, Refusal>
    ensures there { IfOk result (λ found. (place ≤ 7) × (found ≡ place_at places.now place)) }
    ensures value { result ≡ (if nat_le place 7 then Ok (place_at places.now place) else Err Refusal.NoSuchPlace) }
{
    places
        .get(place as usize)
        .copied()
        .ok_or(Refusal::NoSuchPlace)
}

// Puts a word whole.
#[tactic(auto, unfolding(crate::specs::Performing::performed, crate::specs::Serving::served))]
pub(crate) fn load<S: Store>(
    store: &mut S,
    places: &[Place; 8],
    place: u32,
    address: RelativeAddress,
    word: u32,
) -> Result<(), Refusal>
    ensures performed { Performs S.cells (record { store = store.old; places = places.now }) (call.Ask place (request.Load address word)) (answer.Loaded result) (record { store = store.new; places = places.now }) }
    ensures refused { OnErr result (store.new ≡ store.old) }
    ensures store { StoreDoes S.puts_whole S.puts_half (record { row = S.cells store.old; places = places.now }) (call.Ask place (request.Load address word)) store.old store.new }
{
    match place_numbered(places, place)? {
        Place::Free => Err(Refusal::PlaceFree),
        Place::Ready(worker) | Place::Held(worker, _) => {
            let cell = worker.limits.cell(address)?;
            if word >= 1 << 30 {
                return Err(Refusal::NumberTooWide);
            }
            Ok(store.put_whole(cell, word)?)
        }
    }
}

// Tells a word.
#[tactic(auto, unfolding(crate::specs::Performing::performed, crate::specs::Serving::served))]
pub(crate) fn look<S: Store>(
    store: &S,
    places: &[Place; 8],
    place: u32,
    address: RelativeAddress,
) -> Result<Word, Refusal>
    ensures performed { Performs S.cells (record { store = store.now; places = places.now }) (call.Ask place (request.Look address)) (answer.Looked result) (record { store = store.now; places = places.now }) }
{
    match place_numbered(places, place)? {
        Place::Free => Err(Refusal::PlaceFree),
        Place::Ready(worker) | Place::Held(worker, _) => {
            let cell = worker.limits.cell(address)?;
            Ok(store.fetch(cell)?)
        }
    }
}

// Runs a ready worker; one that is interrupted is held afterwards.
#[tactic(auto, unfolding(crate::specs::Performing::performed, crate::specs::Serving::served))]
pub(crate) fn run_worker<S: Store>(
    store: &mut S,
    places: &mut [Place; 8],
    place: u32,
    budget: u32,
) -> Result<Ran, Refusal>
    ensures performed { Performs S.cells (record { store = store.old; places = places.old }) (call.Ask place (request.Run budget)) (answer.Ran result) (record { store = store.new; places = places.new }) }
    ensures refused { OnErr result ((store.new ≡ store.old) × (places.new ≡ places.old)) }
    ensures store { StoreDoes S.puts_whole S.puts_half (record { row = S.cells store.old; places = places.old }) (call.Ask place (request.Run budget)) store.old store.new }
{
    match (place_numbered(places, place)?, budget) {
        (Place::Free, _) => Err(Refusal::PlaceFree),
        (_, budget) if budget > MOST_STEPS => Err(Refusal::BudgetTooLarge),
        (Place::Held(..), _) => Err(Refusal::WorkerHeld),
        (Place::Ready(mut worker), budget) => {
            let ran = run(store, worker.limits, &mut worker.registers, budget);
            places[place as usize] = match ran.ending {
                Ending::Spent => Place::Ready(worker),
                Ending::Interrupted(report) => Place::Held(worker, report),
            };
            Ok(ran)
        }
    }
}

// Have the three numbers of an answer no more bits than they can have?
fn fit(a: u32, q: u32, p: u32) -> bool
    ensures { result ≡ (nat_lt a (2 ^ 30) && nat_lt q (2 ^ 30) && nat_lt p (2 ^ 17)) }
{
    a < 1 << 30 && q < 1 << 30 && p < 1 << 17
}

// The registers with other A, Q and P.
fn with_answer(mut registers: Registers, a: u32, q: u32, p: u32) -> Registers
    requires { IsTrue (nat_lt a (2 ^ 30) && nat_lt q (2 ^ 30) && nat_lt p (2 ^ 17)) }
    ensures { result ≡ record registers { a = a; q = q; p = p } }
{
    registers.set_a(word_bits(a));
    registers.set_q(word_bits(q));
    registers.set_p(p);
    registers
}

// Answers a held worker's report: sets A, Q and P, and makes it ready.
#[tactic(auto, unfolding(crate::specs::Performing::performed, crate::specs::Serving::served))]
pub(crate) fn answer<S: Store>(
    store: &S,
    places: &mut [Place; 8],
    place: u32,
    a: u32,
    q: u32,
    p: u32,
) -> Result<(), Refusal>
    ensures performed { Performs S.cells (record { store = store.now; places = places.old }) (call.Ask place (request.Answer a q p)) (answer.Answered result) (record { store = store.now; places = places.new }) }
    ensures refused { OnErr result (places.new ≡ places.old) }
{
    match (place_numbered(places, place)?, fit(a, q, p)) {
        (Place::Free, _) => Err(Refusal::PlaceFree),
        (_, false) => Err(Refusal::NumberTooWide),
        (Place::Ready(_), true) => Err(Refusal::WorkerNotHeld),
        (Place::Held(worker, _), true) => {
            let answered = Worker {
                limits: worker.limits,
                registers: with_answer(worker.registers, a, q, p),
            };
            places[place as usize] = Place::Ready(answered);
            Ok(())
        }
    }
}

// Writes the register record at the front of a buffer.
#[tactic(auto, unfolding(crate::specs::Performing::performed, crate::specs::Serving::served))]
pub(crate) fn save<S: Store>(
    store: &S,
    places: &[Place; 8],
    place: u32,
    buffer: &mut [u8],
) -> Result<(), Refusal>
    ensures performed { Performs S.cells (record { store = store.now; places = places.now }) (call.Ask place (request.Save buffer.old)) (answer.Saved result buffer.new) (record { store = store.now; places = places.now }) }
    ensures refused { OnErr result (buffer.new ≡ buffer.old) }
    ensures reads_again { OnOk result ((w : Worker) → worker_of (place_at places.now place) ≡ Some w → record_read buffer.new ≡ Ok w.registers) }
{
    match place_numbered(places, place)? {
        Place::Free => Err(Refusal::PlaceFree),
        Place::Ready(worker) | Place::Held(worker, _) => Ok(worker.registers.write(buffer)?),
    }
}

// Reads a register record, and makes the worker ready.
#[tactic(auto, unfolding(crate::specs::Performing::performed, crate::specs::Serving::served))]
pub(crate) fn restore<S: Store>(
    store: &S,
    places: &mut [Place; 8],
    place: u32,
    bytes: &[u8],
) -> Result<(), Refusal>
    ensures performed { Performs S.cells (record { store = store.now; places = places.old }) (call.Ask place (request.Restore bytes.now)) (answer.Restored result) (record { store = store.now; places = places.new }) }
    ensures refused { OnErr result (places.new ≡ places.old) }
{
    match place_numbered(places, place)? {
        Place::Free => Err(Refusal::PlaceFree),
        Place::Ready(worker) | Place::Held(worker, _) => {
            let registers = Registers::read(bytes)?;
            let restored = Worker {
                limits: worker.limits,
                registers,
            };
            places[place as usize] = Place::Ready(restored);
            Ok(())
        }
    }
}

// Tells the state, a held worker's with its report, and the registers.
#[tactic(auto, unfolding(crate::specs::Performing::performed, crate::specs::Serving::served))]
pub(crate) fn tell<S: Store>(store: &S, places: &[Place; 8], place: u32) -> Result<Told, Refusal>
    ensures performed { Performs S.cells (record { store = store.now; places = places.now }) (call.Ask place request.Tell) (answer.Told result) (record { store = store.now; places = places.now }) }
{
    match place_numbered(places, place)? {
        Place::Free => Err(Refusal::PlaceFree),
        Place::Ready(worker) => Ok(Told {
            state: State::Ready,
            registers: worker.registers,
        }),
        Place::Held(worker, report) => Ok(Told {
            state: State::Held(report),
            registers: worker.registers,
        }),
    }
}
