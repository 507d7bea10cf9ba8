// The nine shifts, and scaling.
use super::bench::{Worker, illegal, row};
use std::test::Fail;

const FIRST: u32 = 0o1234567012;

const SECOND: u32 = 0o7654321076;

const ONES: u32 = 0o7777777777;

const TOP: u32 = 0o4000000000;

// Each row has A and Q before and after.
fn shifted(instruction: u32, [a, q]: [u32; 2], [a_after, q_after]: [u32; 2]) -> (Worker, Worker) {
    let before = Worker {
        a,
        q,
        ..Worker::doing(instruction, 0)
    };
    let after = Worker {
        a: a_after,
        q: q_after,
        p: 1,
        ..before
    };
    (before, after)
}

// Three places are an octal digit; 0o35 is 29, 0o36 is 30, 0o72 is 58 and 0o73 is 59.
#[test]
fn right_with_sign_fill(rt: HostRuntime) -> Result<(), Fail> {
    for (instruction, before, after) in [
        (0o01_0_0_0_00003, [FIRST, SECOND], [FIRST, 0o7765432107]),
        (0o01_0_0_0_00003, [SECOND, FIRST], [SECOND, 0o0123456701]),
        (0o01_0_0_0_00000, [FIRST, SECOND], [FIRST, SECOND]),
        (0o01_0_0_0_00001, [0, 0o4000000001], [0, 0o6000000000]),
        (0o01_0_0_0_00035, [0, TOP], [0, ONES]),
        (0o01_0_0_0_00034, [0, 0o3777777777], [0, 1]),
        (0o01_0_0_0_00036, [0, TOP], [0, ONES]),
        (0o01_0_0_0_00073, [TOP, 0o3777777777], [TOP, 0]),
        (0o02_0_0_0_00003, [SECOND, FIRST], [0o7765432107, FIRST]),
        (0o02_0_0_0_00006, [SECOND, FIRST], [0o7776543210, FIRST]),
        (0o02_0_0_0_00003, [FIRST, SECOND], [0o0123456701, SECOND]),
        (0o02_0_0_0_00035, [TOP, 0], [ONES, 0]),
        (0o02_0_0_0_00073, [TOP, 0], [ONES, 0]),
        (0o02_0_0_0_00073, [0o3777777777, TOP], [0, TOP]),
        (
            0o03_0_0_0_00003,
            [SECOND, FIRST],
            [0o7765432107, 0o6123456701],
        ),
        (
            0o03_0_0_0_00003,
            [FIRST, SECOND],
            [0o0123456701, 0o2765432107],
        ),
        (0o03_0_0_0_00036, [SECOND, FIRST], [ONES, SECOND]),
        (0o03_0_0_0_00041, [SECOND, FIRST], [ONES, 0o7765432107]),
        (0o03_0_0_0_00072, [0o3777777777, ONES], [0, 1]),
        (0o03_0_0_0_00073, [0o3777777777, ONES], [0, 0]),
        (0o03_0_0_0_00073, [TOP, 0], [ONES, ONES]),
    ] {
        let (before, after) = shifted(instruction, before, after);
        before.becomes(&rt, after)?;
    }
    Ok(())
}

// A turn of 30 bits by 29, or by 59, is one by a place to the right.
#[test]
fn turns_to_the_left(rt: HostRuntime) -> Result<(), Fail> {
    for (instruction, before, after) in [
        (0o05_0_0_0_00003, [SECOND, FIRST], [SECOND, 0o2345670121]),
        (0o05_0_0_0_00041, [SECOND, FIRST], [SECOND, 0o2345670121]),
        (0o05_0_0_0_00036, [SECOND, FIRST], [SECOND, FIRST]),
        (0o05_0_0_0_00073, [0, 0o0000000003], [0, 0o4000000001]),
        (0o06_0_0_0_00006, [SECOND, FIRST], [0o5432107676, FIRST]),
        (0o06_0_0_0_00001, [TOP, TOP], [1, TOP]),
        (0o06_0_0_0_00000, [SECOND, FIRST], [SECOND, FIRST]),
        (0o06_0_0_0_00035, [0o0000000003, 0], [0o4000000001, 0]),
        (0o06_0_0_0_00044, [SECOND, FIRST], [0o5432107676, FIRST]),
        (
            0o07_0_0_0_00003,
            [FIRST, SECOND],
            [0o2345670127, 0o6543210761],
        ),
        (0o07_0_0_0_00036, [FIRST, SECOND], [SECOND, FIRST]),
        (
            0o07_0_0_0_00041,
            [FIRST, SECOND],
            [0o6543210761, 0o2345670127],
        ),
        (0o07_0_0_0_00073, [0, 1], [TOP, 0]),
        (0o07_0_0_0_00001, [TOP, 0], [0, 1]),
    ] {
        let (before, after) = shifted(instruction, before, after);
        before.becomes(&rt, after)?;
    }
    Ok(())
}

#[test]
fn logical_to_the_right(rt: HostRuntime) -> Result<(), Fail> {
    for (instruction, before, after) in [
        (0o77_51_0_00003, [FIRST, SECOND], [FIRST, 0o0765432107]),
        (0o77_51_0_00035, [0, TOP], [0, 1]),
        (0o77_51_0_00036, [0, ONES], [0, 0]),
        (0o77_51_0_00073, [ONES, ONES], [ONES, 0]),
        (0o77_55_0_00003, [SECOND, FIRST], [0o0765432107, FIRST]),
        (0o77_55_0_00000, [SECOND, FIRST], [SECOND, FIRST]),
        (0o77_55_0_00035, [TOP, ONES], [1, ONES]),
        (0o77_55_0_00073, [ONES, ONES], [0, ONES]),
        (
            0o77_56_0_00003,
            [SECOND, FIRST],
            [0o0765432107, 0o6123456701],
        ),
        (0o77_56_0_00036, [SECOND, FIRST], [0, SECOND]),
        (0o77_56_0_00073, [TOP, ONES], [0, 1]),
        // the count is in the lowest six bits of the address: 3 of 07703
        (0o77_51_0_07703, [FIRST, SECOND], [FIRST, 0o0765432107]),
        (0o77_55_0_00103, [SECOND, FIRST], [0o0765432107, FIRST]),
        (
            0o77_56_0_77703,
            [SECOND, FIRST],
            [0o0765432107, 0o6123456701],
        ),
    ] {
        let (before, after) = shifted(instruction, before, after);
        before.becomes(&rt, after)?;
    }
    Ok(())
}

// Counts of 3 and, from A, of 3 and 6. A is shifted by its own old number.
const COUNTS: [(u32, u32, [u32; 2], [u32; 2]); 12] = [
    (0o02_0_0_0_77703, 0, [FIRST, 0], [0o0123456701, 0]),
    (
        0o02_0_1_0_00005,
        0o7777777703,
        [FIRST, 0],
        [0o0123456701, 0],
    ),
    (
        0o02_0_2_0_00005,
        0o0000377777,
        [FIRST, 0],
        [0o0123456701, 0],
    ),
    (
        0o02_0_3_0_00005,
        0o7777777703,
        [FIRST, 0],
        [0o0123456701, 0],
    ),
    (0o05_0_4_0_77703, 0, [0, FIRST], [0, 0o2345670121]),
    (
        0o05_0_5_0_00005,
        0o0000077703,
        [0, FIRST],
        [0, 0o2345670121],
    ),
    (
        0o06_0_6_0_00005,
        0o7770300077,
        [FIRST, 0],
        [0o2345670121, 0],
    ),
    (0o02_0_7_0_00005, 0, [0o7777777703, 0], [0o7777777770, 0]),
    (
        0o03_0_7_0_00005,
        0,
        [0o0000000006, FIRST],
        [0, 0o0612345670],
    ),
    (0o06_0_7_0_00005, 0, [0o1234567003, 0], [0o2345670031, 0]),
    (
        0o07_0_7_0_00005,
        0,
        [0o0000000003, FIRST],
        [0o0000000031, 0o2345670120],
    ),
    (
        0o01_0_7_0_00005,
        0,
        [0o1234567003, SECOND],
        [0o1234567003, 0o7765432107],
    ),
];

#[test]
fn counts_come_by_k(rt: HostRuntime) -> Result<(), Fail> {
    for (instruction, word, [a, q], after) in COUNTS {
        let [a_after, q_after] = after;
        row(&rt, instruction, [word, a, q], [word, a_after, q_after], 1)?;
    }
    Ok(())
}

#[test]
fn counts_come_by_b(rt: HostRuntime) -> Result<(), Fail> {
    for (instruction, a, q) in [
        (0o77_51_2_00001, SECOND, 0o0765432107),
        (0o77_55_2_00001, 0o0765432107, SECOND),
        (0o77_56_2_00001, 0o0765432107, 0o6765432107),
        (0o02_0_0_2_00001, 0o7765432107, SECOND),
        (0o06_0_0_2_00001, 0o6543210767, SECOND),
    ] {
        let before = Worker {
            a: SECOND,
            q: SECOND,
            b: [0, 0, 2, 0, 0, 0, 0, 0],
            ..Worker::doing(instruction, 0)
        };
        let after = Worker {
            a,
            q,
            p: 1,
            ..before
        };
        before.becomes(&rt, after)?;
    }
    Ok(())
}

#[test]
fn counts_from_60_on_are_illegal(rt: HostRuntime) -> Result<(), Fail> {
    for shift in [
        0o01_1_0_0_00000,
        0o02_1_0_0_00000,
        0o03_1_0_0_00000,
        0o05_1_0_0_00000,
        0o06_1_0_0_00000,
        0o07_1_0_0_00000,
        0o77_51_0_00000,
        0o77_55_0_00000,
        0o77_56_0_00000,
    ] {
        for count in [0o74, 0o75, 0o76, 0o77, 0o174, 0o77777] {
            let (before, _) = shifted(shift | count, [SECOND, FIRST], [0, 0]);
            before.reports(&rt, illegal(0), 1)?;
        }
        // 64 has the lowest six bits of 0
        let (before, after) = shifted(shift | 0o100, [SECOND, FIRST], [SECOND, FIRST]);
        let p = if shift < 0o77_00_0_00000 { 2 } else { 1 };
        before.becomes(&rt, Worker { p, ..after })?;
    }
    let (before, _) = shifted(0o06_0_7_0_00003, [0o1234567074, 0], [0, 0]);
    before.reports(&rt, illegal(0), 1)
}

// Q becomes how many places A is turned until its highest two bits differ.
#[test]
fn scaling_turns_to_the_left(rt: HostRuntime) -> Result<(), Fail> {
    for (a, a_after, q) in [
        (0o0000000001, 0o2000000000, 28),
        (0o4000000000, 0o4000000000, 0),
        (0o3777777777, 0o3777777777, 0),
        (0o0000000000, 0o0000000000, 28),
        (0o7777777777, 0o7777777777, 28),
        // the one 0 goes from bit 0 to bit 28
        (0o7777777776, 0o5777777777, 28),
        // bits 3 and 1 go to 28 and 26
        (0o0000000012, 0o2400000000, 25),
        // bits 29 and 28 go to 0 and 29
        (0o6000000000, 0o4000000001, 1),
    ] {
        for instruction in [0o77_30_0_00000, 0o77_30_3_77777] {
            let (before, after) = shifted(instruction, [a, SECOND], [a_after, q]);
            before.becomes(&rt, after)?;
        }
    }
    Ok(())
}
