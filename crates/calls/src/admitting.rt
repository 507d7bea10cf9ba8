// Admitting: refusals 4 to 7, and what a new worker is.
use super::bench::{MEMORY, ends, scene, seen_first, span, terms, told, unchanged};
use engine::{Refusal, State};
use std::test::Fail;
use store::CellAddress;

// Also where the cells would be past the store or shared, and no entry is below a length of 0.
#[test]
fn lengths_are_1_to_32768(rt: HostRuntime) -> Result<(), Fail> {
    for (lower, length, entry) in [
        (21, 0, 0),
        (4, 0, 9),
        (32, 0, 0),
        (4_294_967_295, 0, 0),
        (21, 32_769, 0),
        (4, 32_769, 32_769),
        (4_294_967_295, 32_769, 0),
        (0, 4_294_967_295, 0),
        (1, 4_294_967_295, 4_294_967_295),
    ] {
        let mut scene = scene(&rt)?;
        let answer = scene.admit(0, CellAddress(lower), terms(length, entry));
        assert_eq!(rt;
            answer,
            Err(Refusal::BadLength),
            "from {lower} on, {length}"
        );
        unchanged(&rt, scene)?;
    }
    Ok(())
}

// No sum is lost to a width.
#[test]
fn spans_that_touch_share_nothing(rt: HostRuntime) -> Result<(), Fail> {
    for (lower, length) in [(0, 4), (3, 1), (12, 3), (12, 1), (14, 1), (21, 11), (21, 1)] {
        let mut scene = scene(&rt)?;
        let answer = scene.admit(3, CellAddress(lower), terms(length, length - 1));
        assert_eq!(rt; answer, Ok(()), "from {lower} on, {length}");
        let mut seen = seen_first();
        seen.told[3] = Ok(told(State::Ready, 0, 0, length - 1));
        seen.spans[3] = Ok(span(lower, length));
        ends(&rt, scene, seen, &MEMORY)?;
    }
    Ok(())
}

// It is ready with 0 in all registers but P; its words are what lies in its cells, spoiled or not.
