// Comparisons of two words, and under a mask, and the B skip.
use super::bench::{Worker, row};
use std::test::Fail;

const ONES: u32 = 0o7777777777;

const TOP: u32 = 0o4000000000;

const LARGEST: u32 = 0o3777777777;

// A and Q, and the words at 5 and 6: whether they are equal, and whether A and Q are less.
#[test]
fn double_words_are_compared(rt: HostRuntime) -> Result<(), Fail> {
    for ([a, q], [first, second], equal, less) in [
        ([1, 2], [1, 2], true, false),
        ([1, 2], [1, 3], false, true),
        ([1, 3], [1, 2], false, false),
        ([1, 2], [2, 2], false, true),
        ([2, 1], [1, 2], false, false),
        ([0, ONES], [1, 0], false, true),
        ([1, 0], [0, ONES], false, false),
        // the sign of Q is a bit like the others
        ([0, 1], [0, TOP], false, true),
        ([0, TOP], [0, 1], false, false),
        // −0 is just below +0, and −1 below both
        ([ONES, ONES], [0, 0], false, true),
        ([0, 0], [ONES, ONES], false, false),
        ([ONES, 0o7777777776], [ONES, ONES], false, true),
        ([ONES, ONES], [ONES, 0o7777777776], false, false),
        ([ONES, ONES], [ONES, ONES], true, false),
        ([0, 0], [0, 0], true, false),
        // of two below 0, and the ends
        ([0o7777777776, 0], [ONES, 0], false, true),
        ([ONES, 0], [0o7777777776, 0], false, false),
        ([TOP, 0], [LARGEST, ONES], false, true),
        ([LARGEST, ONES], [TOP, 0], false, false),
        ([LARGEST, ONES], [LARGEST, ONES], true, false),
    ] {
        for (instruction, skips) in [(0o77_23_0_00005, equal), (0o77_27_0_00005, less)] {
            let mut before = Worker {
                a,
                q,
                ..Worker::doing(instruction, first)
            };
            before.words[6] = second;
            let p = if skips { 2 } else { 1 };
            before.becomes(&rt, Worker { p, ..before })?;
        }
    }
    Ok(())
}

// A, the word at 5 and the mask Q: whether they are equal under it, and whether A is less.
#[test]
fn words_are_compared_under_a_mask(rt: HostRuntime) -> Result<(), Fail> {
    for (a, word, q, equal, less) in [
        (0o1234567012, 0o7777767012, 0o0000077777, true, false),
        (0o1234567012, 0o7777767012, 0o0000100000, true, false),
        (0o1234567012, 0o7777767012, 0o4000000000, false, true),
        (0o7777767012, 0o1234567012, 0o4000000000, false, false),
        (0o1234567012, 0o7654321076, 0o0000000000, true, false),
        (ONES, 0, 0, true, false),
        (0o1234567012, 0o1234567012, ONES, true, false),
        (ONES, 0, ONES, false, false),
        (0, ONES, ONES, false, true),
        (5, 6, ONES, false, true),
        (7, 6, ONES, false, false),
        // bit 29 is a bit like the others
        (LARGEST, TOP, ONES, false, true),
        (TOP, LARGEST, ONES, false, false),
        // 14 and 7 are 6 and 7 under the mask 7
        (0o0000000016, 0o0000000007, 7, false, true),
        (0o0000000007, 0o0000000016, 7, false, false),
    ] {
        for (instruction, skips) in [(0o77_53_0_00005, equal), (0o77_57_0_00005, less)] {
            let p = if skips { 2 } else { 1 };
            row(&rt, instruction, [word, a, q], [word, a, q], p)?;
        }
    }
    Ok(())
}

// B3 before and after, and P.
const B_SKIPS: [(u32, u32, u32, u32); 20] = [
    (0o71_3_0_0_00003, 3, 0, 2),
    (0o71_3_0_0_00003, 2, 3, 1),
    (0o71_3_0_0_00003, 0, 1, 1),
    (0o71_3_0_0_00000, 0, 0, 2),
    (0o71_3_0_0_00003, 0o77777, 0, 1),
    (0o71_3_0_0_77777, 0o77777, 0, 2),
    // the lowest 15 bits of the operand: of the word 4321712345 and of A, 7777700003
    (0o71_3_1_0_00005, 0o12345, 0, 2),
    (0o71_3_2_0_00005, 0o43217, 0, 2),
    (0o71_3_2_0_00005, 0o12345, 0o12346, 1),
    (0o71_3_3_0_00005, 0o12345, 0, 2),
    (0o71_3_4_0_77776, 0o77776, 0, 2),
    (0o71_3_5_0_00005, 0o12345, 0, 2),
    (0o71_3_6_0_00005, 0o43217, 0, 2),
    (0o71_3_7_0_00005, 3, 0, 2),
    (0o71_3_7_0_00005, 4, 5, 1),
    // B3 from before is in the address too: 2 + 3 is not 3, and 3 is at 0 + 3
    (0o71_3_0_3_00002, 3, 4, 1),
    (0o71_3_0_3_00000, 3, 0, 2),
    // there is no B0
    (0o71_0_0_0_00000, 7, 7, 2),
    (0o71_0_0_0_00001, 7, 7, 1),
    (0o71_0_1_0_00005, 7, 7, 1),
];

#[test]
fn b_skips_where_it_is_equal(rt: HostRuntime) -> Result<(), Fail> {
    for (instruction, b3, b3_after, p) in B_SKIPS {
        let before = Worker {
            a: 0o7777700003,
            b: [0, 1, 2, b3, 4, 5, 6, 7],
            ..Worker::doing(instruction, 0o4321712345)
        };
        let after = Worker {
            b: [0, 1, 2, b3_after, 4, 5, 6, 7],
            p,
            ..before
        };
        before.becomes(&rt, after)?;
    }
    Ok(())
}
