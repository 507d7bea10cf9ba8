// References of instructions with more than one of them, or with none.
use super::bench::{LOWER_SPOILED, UPPER_SPOILED, Worker, parity, protection};
use processor::ReferenceKind::{Read, Write};
use std::test::Fail;
use store::Half::{Lower, Upper};

const FIRST: u32 = 0o1234567012;

// Neither the spoiled word at 5 nor the missing one at 8 matters. The product of A and Q is 1214121012, and A shifted by 5 is 0024713560.
#[test]
fn nothing_is_referred_to(rt: HostRuntime) -> Result<(), Fail> {
    for (instruction, a, q) in [
        (0o12_0_3_0_00005, FIRST, 0o7654321076),
        (0o12_0_1_0_00010, FIRST, 0o7654321076),
        (0o12_0_2_0_77777, FIRST, 0o7654321076),
        (0o11_0_0_0_00005, 5, 0o7654321076),
        (0o11_0_4_0_00010, 8, 0o7654321076),
        (0o10_0_7_0_00010, FIRST, FIRST),
        (0o15_0_0_0_00010, FIRST, FIRST),
        (0o14_0_4_0_00010, 0o7654321076, 0o7654321076),
        (0o16_3_4_0_00005, 3, 0o7654321076),
        (0o47_0_0_0_00010, FIRST, 0o1214121012),
        (0o77_55_0_00005, 0o0024713560, 0o7654321076),
    ] {
        let before = Worker::busy(instruction, FIRST + UPPER_SPOILED + LOWER_SPOILED);
        before.becomes(
            &rt,
            Worker {
                a,
                q,
                p: 1,
                ..before
            },
        )?;
    }
    Ok(())
}

// The first word is tried for both before the second is looked at.
#[test]
fn two_words_are_read_in_order(rt: HostRuntime) -> Result<(), Fail> {
    for instruction in [0o77_21_0_00000, 0o77_23_0_00000, 0o77_27_0_00000] {
        Worker::busy(instruction | 0o00007, 0).reports(&rt, protection(Read, 8), 1)?;
        Worker::busy(instruction | 0o00010, 0).reports(&rt, protection(Read, 8), 1)?;
        Worker::busy(instruction | 0o00011, 0).reports(&rt, protection(Read, 9), 1)?;
        let spoiled = Worker::busy(instruction | 0o00004, LOWER_SPOILED);
        spoiled.reports(&rt, parity(Read, 5, Lower), 0)?;
        let mut spoiled = Worker::busy(instruction | 0o00007, 0);
        spoiled.words[7] = UPPER_SPOILED;
        spoiled.reports(&rt, parity(Read, 7, Upper), 0)?;
        spoiled.words[6] = LOWER_SPOILED;
        spoiled.words[0] = instruction | 0o00006;
        spoiled.reports(&rt, parity(Read, 6, Lower), 0)?;
    }
    Ok(())
}

// Both are tried before either is put, and neither meets parity.
#[test]
fn two_words_are_put_or_none(rt: HostRuntime) -> Result<(), Fail> {
    let mut before = Worker::busy(0o77_25_0_00007, 0);
    before.words[7] = 0o3333344444;
    before.reports(&rt, protection(Write, 8), 1)?;
    before.words[7] = UPPER_SPOILED;
    before.reports(&rt, protection(Write, 8), 1)?;
    Worker::busy(0o77_25_0_00010, 0).reports(&rt, protection(Write, 8), 1)?;
    Worker::busy(0o77_25_0_00011, 0).reports(&rt, protection(Write, 9), 1)?;
    let mut before = Worker::busy(0o77_25_0_00005, UPPER_SPOILED);
    before.words[6] = UPPER_SPOILED + LOWER_SPOILED;
    let mut after = Worker { p: 1, ..before };
    after.words[5] = FIRST;
    after.words[6] = 0o7654321076;
    before.becomes(&rt, after)
}

#[test]
fn five_words_are_read_in_order(rt: HostRuntime) -> Result<(), Fail> {
    Worker::busy(0o77_31_0_00004, 0).reports(&rt, protection(Read, 8), 1)?;
    Worker::busy(0o77_31_0_00007, 0).reports(&rt, protection(Read, 8), 1)?;
    Worker::busy(0o77_31_0_00010, 0).reports(&rt, protection(Read, 8), 1)?;
    for (at, word) in [(3, 3), (4, 4), (5, 5), (6, 6), (7, 7)] {
        for y in [0o00003, 0o00002, 0o00004] {
            let mut before = Worker::busy(0o77_31_0_00000 | y, 0);
            if let Some(cell) = before.words.get_mut(at) {
                *cell = FIRST + LOWER_SPOILED;
            }
            // from 2 on the word at 7 is not read, and from 4 on that at 3 is not, but there is none at 8
            if y == 2 && word == 7 {
                before.becomes(
                    &rt,
                    Worker {
                        a: 0,
                        p: 1,
                        ..before
                    },
                )?;
            } else if y == 4 && word == 3 {
                before.reports(&rt, protection(Read, 8), 1)?;
            } else {
                before.reports(&rt, parity(Read, word, Lower), 0)?;
            }
        }
    }
    Ok(())
}

// A return jump writes only if it jumps, and then after its read.
#[test]
fn a_return_jump_reads_and_writes(rt: HostRuntime) -> Result<(), Fail> {
    Worker::busy(0o64_1_0_0_00005, FIRST + UPPER_SPOILED).reports(&rt, parity(Write, 5, Upper), 0)?;
    Worker::busy(0o64_1_0_0_00010, 0).reports(&rt, protection(Write, 8), 1)?;
    Worker::busy(0o64_1_4_0_77777, 0).reports(&rt, protection(Write, 0o77777), 1)?;
    Worker::busy(0o64_1_1_0_00005, 0o00010).reports(&rt, protection(Write, 8), 1)?;
    Worker::busy(0o64_1_3_0_00010, 0).reports(&rt, protection(Read, 8), 1)?;
    Worker::busy(0o64_1_1_0_00005, FIRST + LOWER_SPOILED).reports(&rt, parity(Read, 5, Lower), 0)?;
    let mended = Worker::busy(0o64_1_0_0_00005, FIRST + LOWER_SPOILED);
    let mut after = Worker { p: 6, ..mended };
    after.words[5] = 0o1234500001;
    mended.becomes(&rt, after)?;
    for (instruction, word) in [
        (0o64_0_0_0_00005, FIRST + UPPER_SPOILED),
        (0o64_0_0_0_00010, 0),
        (0o64_0_1_0_00005, 0o77777),
    ] {
        let before = Worker::busy(instruction, word);
        before.becomes(&rt, Worker { p: 1, ..before })?;
    }
    Ok(())
}

// A spoiled half is reported whether or not bit 14 is 1.
#[test]
fn a_test_reads_the_whole_cell(rt: HostRuntime) -> Result<(), Fail> {
    for word in [0, 0o40000] {
        Worker::busy(0o77_52_0_00005, word + UPPER_SPOILED).reports(
            &rt,
            parity(Read, 5, Upper),
            0,
        )?;
        Worker::busy(0o77_52_0_00005, word + LOWER_SPOILED).reports(
            &rt,
            parity(Read, 5, Lower),
            0,
        )?;
        Worker::busy(0o77_52_0_00010, word).reports(&rt, protection(Read, 8), 1)?;
    }
    Ok(())
}
