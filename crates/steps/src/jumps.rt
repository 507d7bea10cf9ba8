// Jumps, return jumps, and jumps that count an index register down.
use super::bench::{Worker, row};
use std::test::Fail;

// One to the field j.
const J: u32 = 0o00_1_0_0_00000;

// 0o60 and 0o64 jump by j; each row has which of j = 0 to 7 do. The return jump goes to 6 and leaves 1 at 5.
const JUMPS: [(u32, u32, [bool; 8]); 5] = [
    (
        0o0000000000,
        0o0000000000,
        [false, true, true, false, true, false, true, false],
    ),
    (
        0o7777777777,
        0o7777777777,
        [false, true, false, true, false, true, false, true],
    ),
    (
        0o0000000001,
        0o4000000000,
        [false, true, false, true, false, true, true, false],
    ),
    (
        0o4000000000,
        0o3777777777,
        [false, true, true, false, false, true, false, true],
    ),
    (
        0o0000000000,
        0o7777777777,
        [false, true, false, true, true, false, true, false],
    ),
];

#[test]
fn j_decides(rt: HostRuntime) -> Result<(), Fail> {
    for (a, q, jumps) in JUMPS {
        for j in 0..8 {
            let more = j as u32 * J;
            let (p, word) = if jumps[j] {
                (6, 0o1234500001)
            } else {
                (1, 0o1234567012)
            };
            row(&rt, 0o60_0_0_0_00006 + more, [7, a, q], [7, a, q], p)?;
            row(
                &rt,
                0o64_0_0_0_00005 + more,
                [0o1234567012, a, q],
                [word, a, q],
                p,
            )?;
        }
    }
    Ok(())
}

// The target is the lowest 15 bits of the operand, and is not tried. Of the word the halves are 00004 and 77776.
#[test]
fn targets_come_by_k(rt: HostRuntime) -> Result<(), Fail> {
    const WORD: u32 = 0o0000477776;
    for (instruction, p) in [
        (0o60_1_0_0_00000, 0),
        (0o60_1_0_0_00010, 0o10),
        (0o60_1_0_0_77777, 0o77777),
        (0o60_1_1_0_00005, 0o77776),
        (0o60_1_2_0_00005, 0o00004),
        (0o60_1_3_0_00005, 0o77776),
        (0o60_1_4_0_40000, 0o40000),
        (0o60_1_5_0_00005, 0o77776),
        (0o60_1_6_0_00005, 0o00004),
        (0o60_1_7_0_00005, 0o67012),
        (0o60_0_3_0_00005, 1),
    ] {
        let a = 0o1234567012;
        row(&rt, instruction, [WORD, a, 0], [WORD, a, 0], p)?;
    }
    let before = Worker {
        b: [0, 0o77777, 0, 0, 0, 0, 0, 0],
        ..Worker::doing(0o60_1_0_1_00005, 0)
    };
    before.becomes(&rt, Worker { p: 4, ..before })
}

// A return jump by each k, to the word at 2 or 3: its lower half becomes 1, P + 1, and its upper half stays.
#[test]
fn the_way_back_is_left(rt: HostRuntime) -> Result<(), Fail> {
    for (instruction, target) in [
        (0o64_1_0_0_00002, 2),
        (0o64_1_1_0_00005, 2),
        (0o64_1_2_0_00005, 3),
        (0o64_1_3_0_00005, 2),
        (0o64_1_4_0_00003, 3),
        (0o64_1_5_0_00005, 2),
        (0o64_1_6_0_00005, 3),
        (0o64_1_7_0_77777, 3),
    ] {
        let mut before = Worker::doing(instruction, 0o0000300002);
        before.a = 0o7777700003;
        before.words[2] = 0o7654321076;
        before.words[3] = 0o7654321076;
        let mut after = before;
        if let Some(word) = after.words.get_mut(target) {
            *word = 0o7654300001;
        }
        after.p = target as u32 + 1;
        before.becomes(&rt, after)?;
    }
    Ok(())
}

// From P = 3 on, 4 is left; a return jump to itself changes its own word, and goes on behind it.
#[test]
fn the_way_back_is_behind_the_jump(rt: HostRuntime) -> Result<(), Fail> {
    let mut before = Worker::doing(0, 0o1234567012);
    before.p = 3;
    before.words[3] = 0o64_1_0_0_00005;
    let mut after = Worker { p: 6, ..before };
    after.words[5] = 0o1234500004;
    before.becomes(&rt, after)?;
    before.words[3] = 0o64_1_0_0_00003;
    let mut after = Worker { p: 4, ..before };
    after.words[3] = 0o64_1_0_0_00004;
    before.becomes(&rt, after)?;
    before.words[3] = 0o64_1_0_0_00007;
    let mut after = Worker { p: 8, ..before };
    after.words[7] = 0o00004;
    before.becomes(&rt, after)
}

// B3 before and after, and P.
#[test]
fn b_jumps_until_it_is_zero(rt: HostRuntime) -> Result<(), Fail> {
    for (instruction, b3, b3_after, p) in [
        (0o72_3_0_0_00006, 3, 2, 6),
        (0o72_3_0_0_00006, 1, 0, 6),
        (0o72_3_0_0_00006, 0, 0, 1),
        (0o72_3_0_0_77777, 0o77777, 0o77776, 0o77777),
        (0o72_3_1_0_00005, 3, 2, 0o12345),
        (0o72_3_2_0_00005, 3, 2, 0o43217),
        (0o72_3_3_0_00005, 3, 2, 0o12345),
        (0o72_3_4_0_40000, 3, 2, 0o40000),
        (0o72_3_5_0_00005, 3, 2, 0o12345),
        (0o72_3_6_0_00005, 3, 2, 0o43217),
        (0o72_3_6_0_00005, 0, 0, 1),
        (0o72_3_7_0_00005, 3, 2, 0o00006),
        // the old B3 is in the address
        (0o72_3_0_3_00002, 3, 2, 5),
        // there is no B0
        (0o72_0_0_0_00006, 3, 3, 1),
        (0o72_0_3_0_00005, 3, 3, 1),
    ] {
        let before = Worker {
            a: 0o7777700006,
            b: [0, 1, 2, b3, 4, 5, 6, 7],
            ..Worker::doing(instruction, 0o4321712345)
        };
        let after = Worker {
            b: [0, 1, 2, b3_after, 4, 5, 6, 7],
            p,
            ..before
        };
        before.becomes(&rt, after)?;
    }
    Ok(())
}
