// Executive return, test and set, and packing.
use super::bench::{Worker, row};
use processor::{RelativeAddress, Report};
use std::test::Fail;

// The address is reported, with B1 = 1 in it and without the carry; it can be past the words.
#[test]
fn an_executive_return_tells_its_address(rt: HostRuntime) -> Result<(), Fail> {
    for (instruction, address) in [
        (0o77_54_0_00000, 0),
        (0o77_54_0_00005, 5),
        (0o77_54_0_77777, 0o77777),
        (0o77_54_1_00012, 0o13),
        (0o77_54_1_77777, 0),
    ] {
        let before = Worker {
            a: 5,
            q: 6,
            b: [0, 1, 2, 3, 4, 5, 6, 7],
            ..Worker::doing(instruction, 0xc000_0000)
        };
        before.reports(&rt, Report::ExecutiveReturn(RelativeAddress(address)), 1)?;
    }
    Ok(())
}

// Bit 14 is the highest of the lower half.
#[test]
fn a_bit_is_set_once(rt: HostRuntime) -> Result<(), Fail> {
    for (word, after) in [
        (0o0000000000, 0o0000077777),
        (0o1234537777, 0o1234577777),
        (0o7777712345, 0o7777777777),
    ] {
        row(&rt, 0o77_52_0_00005, [word, 3, 4], [after, 3, 4], 1)?;
    }
    for word in [0o0000040000, 0o1234577777, 0o7777767012] {
        let report = Report::TestAndSet(RelativeAddress(5));
        Worker::doing(0o77_52_0_00005, word).reports(&rt, report, 1)?;
        let before = Worker {
            b: [0, 0, 0, 0, 0, 0, 0o77777, 0],
            ..Worker::doing(0o77_52_6_00006, word)
        };
        before.reports(&rt, report, 1)?;
    }
    Ok(())
}

// P + 1 from another P than 0.
#[test]
fn reports_go_on_behind_the_instruction(rt: HostRuntime) -> Result<(), Fail> {
    let mut before = Worker::doing(0, 0o0000040000);
    before.p = 6;
    before.words[6] = 0o77_54_0_00001;
    before.reports(&rt, Report::ExecutiveReturn(RelativeAddress(1)), 7)?;
    before.words[6] = 0o77_52_0_00005;
    before.reports(&rt, Report::TestAndSet(RelativeAddress(5)), 7)?;
    before.p = 7;
    before.words[7] = 0o77_54_0_00001;
    before.reports(&rt, Report::ExecutiveReturn(RelativeAddress(1)), 8)
}

// The lowest two octal digits of five words, side by side.
#[test]
fn characters_are_packed(rt: HostRuntime) -> Result<(), Fail> {
    let before = Worker {
        words: [
            0o77_31_2_00001,
            0,
            0,
            0o7777777712,
            0o0000000034,
            0o1234567056,
            0o7654321770,
            0o4000000001,
        ],
        a: 0o7777777777,
        q: 4,
        b: [0, 0, 2, 0, 0, 0, 0, 0],
        p: 0,
    };
    let after = Worker {
        a: 0o1234567001,
        p: 1,
        ..before
    };
    before.becomes(&rt, after)
}
