// Run: refusals 10 and 11, budgets, and what comes of a run.
use super::bench::{MEMORY, ends, executive, interrupted, scene, seen_first, told, unchanged};
use engine::{Refusal, State};
use processor::{RelativeAddress, Report};
use std::test::Fail;
use words::word_bits;

#[test]
fn a_held_worker_does_not_run(rt: HostRuntime) -> Result<(), Fail> {
    for budget in [0, 1, 10, 1_000_000] {
        let mut scene = scene(&rt)?;
        assert_eq!(rt; scene.run(6, budget), Err(Refusal::WorkerHeld), "{budget}");
        unchanged(&rt, scene)?;
    }
    Ok(())
}

// A worker that spends its budget stays ready and goes on where it was.
// With P = 2 it puts the A that it was answered with; past its program the word at 4 is no instruction.
#[test]
fn an_answered_worker_runs_on(rt: HostRuntime) -> Result<(), Fail> {
    let mut scene = scene(&rt)?;
    assert_eq!(rt; scene.run(1, 10), Ok(interrupted(4, executive(10))));
    assert_eq!(rt; scene.answer(1, 0o77, 2, 2), Ok(()));
    assert_eq!(rt; scene.tell(1), Ok(told(State::Ready, 0o77, 2, 2)));
    assert_eq!(rt; scene.run(1, 10), Ok(interrupted(2, executive(10))));
    assert_eq!(rt; scene.look(1, RelativeAddress(7)), Ok(word_bits(0o77)));
    assert_eq!(rt; scene.answer(1, 0, 2, 4), Ok(()));
    let illegal = Report::IllegalInstruction(RelativeAddress(4));
    assert_eq!(rt; scene.run(1, 10), Ok(interrupted(1, illegal)));
    let mut seen = seen_first();
    seen.told[1] = Ok(told(State::Held(illegal), 0, 2, 5));
    seen.words[7] = Ok(word_bits(0o77));
    let mut memory = MEMORY;
    memory[11] = 0o77;
    ends(&rt, scene, seen, &memory)
}

// P is not tried against the length before the fetch, and all of its 17 bits are told.
// The word at 1 has a spoiled upper half; loaded anew it is an executive return with address 3.
// Each program, how its run with budget 10 ends, and A and P after it.
