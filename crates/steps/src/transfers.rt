// Entering and storing: A, Q, index registers, and A and Q together.
use super::bench::{Worker, row};
use std::test::Fail;

const FIRST: u32 = 0o1234567012;

// A and Q where they are not what is stored.
const A: u32 = 0o3333344444;

const Q: u32 = 0o2222255555;

// The word at 5 before a store.
const OLD: u32 = 0o7070604050;

#[test]
fn q_is_entered(rt: HostRuntime) -> Result<(), Fail> {
    for (instruction, q) in [
        (0o10_0_0_0_00005, 0o0000000005),
        (0o10_0_1_0_00005, 0o0000067012),
        (0o10_0_2_0_00005, 0o0000012345),
        (0o10_0_3_0_00005, 0o1234567012),
        (0o10_0_4_0_77776, 0o7777777776),
        (0o10_0_5_0_00005, 0o7777767012),
        (0o10_0_6_0_00005, 0o0000012345),
        (0o10_0_7_0_77777, 0o7654321076),
    ] {
        let before = [FIRST, 0o7654321076, 0o3333333333];
        row(&rt, instruction, before, [FIRST, 0o7654321076, q], 1)?;
    }
    Ok(())
}

// Whatever k is, Bj becomes the lowest 15 bits of the operand.
#[test]
fn index_registers_are_entered(rt: HostRuntime) -> Result<(), Fail> {
    for (instruction, j, number) in [
        (0o12_1_0_0_00005, 1, 0o00005),
        (0o12_2_1_0_00005, 2, 0o67012),
        (0o12_3_2_0_00005, 3, 0o12345),
        (0o12_4_3_0_00005, 4, 0o67012),
        (0o12_5_4_0_40005, 5, 0o40005),
        (0o12_6_5_0_00005, 6, 0o67012),
        (0o12_7_6_0_00005, 7, 0o12345),
        (0o12_1_7_0_77777, 1, 0o21076),
        // B2 from before is in the address: 2 + 3
        (0o12_2_0_2_00003, 2, 0o00005),
        (0o12_2_1_2_00003, 2, 0o67012),
    ] {
        let before = Worker {
            a: 0o7654321076,
            b: [0, 2, 2, 2, 2, 2, 2, 2],
            ..Worker::doing(instruction, FIRST)
        };
        let mut after = Worker { p: 1, ..before };
        if let Some(register) = after.b.get_mut(j) {
            *register = number;
        }
        before.becomes(&rt, after)?;
    }
    Ok(())
}

// The complement of Q is 6543210765. Each row has the word, A and Q afterwards.
#[test]
fn q_is_stored(rt: HostRuntime) -> Result<(), Fail> {
    for (instruction, after) in [
        (0o14_0_0_0_77777, [OLD, A, 0o6543210765]),
        (0o14_0_1_0_00005, [0o7070667012, A, FIRST]),
        (0o14_0_2_0_00005, [0o6701204050, A, FIRST]),
        (0o14_0_3_0_00005, [0o1234567012, A, FIRST]),
        (0o14_0_4_0_77777, [OLD, FIRST, FIRST]),
        (0o14_0_5_0_00005, [0o7070610765, A, FIRST]),
        (0o14_0_6_0_00005, [0o1076504050, A, FIRST]),
        (0o14_0_7_0_00005, [0o6543210765, A, FIRST]),
    ] {
        row(&rt, instruction, [OLD, A, FIRST], after, 1)?;
    }
    Ok(())
}

// The complement of A is 6543210765.
#[test]
fn a_is_stored(rt: HostRuntime) -> Result<(), Fail> {
    for (instruction, after) in [
        (0o15_0_0_0_77777, [OLD, FIRST, FIRST]),
        (0o15_0_1_0_00005, [0o7070667012, FIRST, Q]),
        (0o15_0_2_0_00005, [0o6701204050, FIRST, Q]),
        (0o15_0_3_0_00005, [0o1234567012, FIRST, Q]),
        (0o15_0_4_0_77777, [OLD, 0o6543210765, Q]),
        (0o15_0_5_0_00005, [0o7070610765, FIRST, Q]),
        (0o15_0_6_0_00005, [0o1076504050, FIRST, Q]),
        (0o15_0_7_0_00005, [0o6543210765, FIRST, Q]),
    ] {
        row(&rt, instruction, [OLD, FIRST, Q], after, 1)?;
    }
    Ok(())
}

// B1 is 00001, B3 is 12345 with the complement 65432, and B4 is the other way around. No j skips.
const STORED: [(u32, [u32; 3]); 22] = [
    (0o16_3_0_0_77777, [OLD, A, 0o0000012345]),
    (0o16_3_1_0_00005, [0o7070612345, A, Q]),
    (0o16_3_2_0_00005, [0o1234504050, A, Q]),
    (0o16_3_3_0_00005, [0o0000012345, A, Q]),
    (0o16_3_4_0_77777, [OLD, 0o0000012345, Q]),
    (0o16_3_5_0_00005, [0o7070665432, A, Q]),
    (0o16_3_6_0_00005, [0o6543204050, A, Q]),
    (0o16_3_7_0_00005, [0o7777765432, A, Q]),
    (0o16_4_0_0_77777, [OLD, A, 0o0000065432]),
    (0o16_4_3_0_00005, [0o0000065432, A, Q]),
    (0o16_4_4_0_77777, [OLD, 0o0000065432, Q]),
    (0o16_4_7_0_00005, [0o0000012345, A, Q]),
    (0o16_1_7_0_00005, [0o7777777776, A, Q]),
    (0o16_0_0_0_77777, [OLD, A, 0]),
    (0o16_0_1_0_00005, [0o7070600000, A, Q]),
    (0o16_0_2_0_00005, [0o0000004050, A, Q]),
    (0o16_0_3_0_00005, [0o0000000000, A, Q]),
    (0o16_0_4_0_77777, [OLD, 0, Q]),
    (0o16_0_5_0_00005, [0o7070677777, A, Q]),
    (0o16_0_6_0_00005, [0o7777704050, A, Q]),
    (0o16_0_7_0_00005, [0o7777777777, A, Q]),
    // put at 4 + B1, of which B1 is also what is put
    (0o16_1_1_1_00004, [0o7070600001, A, Q]),
];

#[test]
fn index_registers_are_stored(rt: HostRuntime) -> Result<(), Fail> {
    for (instruction, [word, a, q]) in STORED {
        let before = Worker {
            a: A,
            q: Q,
            b: [0, 1, 2, 0o12345, 0o65432, 5, 6, 7],
            ..Worker::doing(instruction, OLD)
        };
        let after = Worker {
            a,
            q,
            p: 1,
            ..Worker::doing(instruction, word)
        };
        before.becomes(
            &rt,
            Worker {
                b: before.b,
                ..after
            },
        )?;
    }
    Ok(())
}

#[test]
fn a_and_q_go_together(rt: HostRuntime) -> Result<(), Fail> {
    let mut before = Worker::doing(0o77_21_0_00006, 0o5555555555);
    before.words[6] = FIRST;
    before.words[7] = 0o7654321076;
    let entered = Worker {
        a: FIRST,
        q: 0o7654321076,
        p: 1,
        ..before
    };
    before.becomes(&rt, entered)?;
    let mut before = Worker {
        a: 0o2222222222,
        q: 0o4444444444,
        b: [0, 0, 0, 0o77777, 0, 0, 0, 0],
        ..before
    };
    before.words[0] = 0o77_25_3_00007;
    let mut stored = Worker { p: 1, ..before };
    stored.words[6] = 0o2222222222;
    stored.words[7] = 0o4444444444;
    before.becomes(&rt, stored)
}
