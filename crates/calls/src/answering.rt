// Answer: refusals 9 and 12, and what it sets.
use super::bench::{MEMORY, ends, recorded, scene, seen_first};
use engine::{Refusal, State, Told};
use std::test::Fail;
use words::word_bits;

// B1 to B7 stay, and the report is dropped.
#[test]
fn an_answer_sets_a_q_and_p(rt: HostRuntime) -> Result<(), Fail> {
    for (a, q, p) in [
        (0, 0, 0),
        (1, 2, 3),
        (3, 2, 1),
        ((1 << 30) - 1, 0, 5),
        (0, (1 << 30) - 1, 6),
        (0o1111111111, 0o2222222222, 131_071),
    ] {
        let mut scene = scene(&rt)?;
        assert_eq!(rt; scene.answer(6, a, q, p), Ok(()), "{a}, {q}, {p}");
        let mut registers = recorded(p);
        registers.set_a(word_bits(a));
        registers.set_q(word_bits(q));
        let mut seen = seen_first();
        seen.told[6] = Ok(Told {
            state: State::Ready,
            registers,
        });
        assert_eq!(rt;
            scene.answer(6, a, q, p),
            Err(Refusal::WorkerNotHeld),
            "{a}, {q}, {p}"
        );
        ends(&rt, scene, seen, &MEMORY)?;
    }
    Ok(())
}
