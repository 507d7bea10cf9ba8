// The operand by k, and the address by b. A becomes the operand in all of them.
use super::bench::{Worker, row};
use std::test::Fail;

// The lower half 67012 has sign 1 and the upper half 12345 has sign 0; in the other word it is the other way around.
const FIRST: u32 = 0o1234567012;

const SECOND: u32 = 0o6543201234;

const A: u32 = 0o3333344444;

#[test]
fn k_picks_the_operand(rt: HostRuntime) -> Result<(), Fail> {
    for (instruction, word, a) in [
        (0o11_0_0_0_00005, FIRST, 0o0000000005),
        (0o11_0_0_0_77777, FIRST, 0o0000077777),
        (0o11_0_1_0_00005, FIRST, 0o0000067012),
        (0o11_0_1_0_00005, SECOND, 0o0000001234),
        (0o11_0_2_0_00005, FIRST, 0o0000012345),
        (0o11_0_2_0_00005, SECOND, 0o0000065432),
        (0o11_0_3_0_00005, FIRST, FIRST),
        (0o11_0_3_0_00005, SECOND, SECOND),
        (0o11_0_4_0_00005, FIRST, 0o0000000005),
        (0o11_0_4_0_37777, FIRST, 0o0000037777),
        (0o11_0_4_0_40005, FIRST, 0o7777740005),
        (0o11_0_5_0_00005, FIRST, 0o7777767012),
        (0o11_0_5_0_00005, SECOND, 0o0000001234),
        (0o11_0_6_0_00005, FIRST, 0o0000012345),
        (0o11_0_6_0_00005, SECOND, 0o7777765432),
        (0o11_0_7_0_00005, FIRST, A),
        (0o11_0_7_0_77777, FIRST, A),
    ] {
        row(&rt, instruction, [word, A, 1], [word, a, 1], 1)?;
    }
    Ok(())
}

#[test]
fn b_names_an_index_register(rt: HostRuntime) -> Result<(), Fail> {
    let b = [0, 0o100, 0o200, 0o300, 0o400, 0o500, 0o600, 0o700];
    for (instruction, a) in [
        (0o11_0_0_0_00012, 0o0000000012),
        (0o11_0_0_1_00012, 0o0000000112),
        (0o11_0_0_2_00012, 0o0000000212),
        (0o11_0_0_3_00012, 0o0000000312),
        (0o11_0_0_4_00012, 0o0000000412),
        (0o11_0_0_5_00012, 0o0000000512),
        (0o11_0_0_6_00012, 0o0000000612),
        (0o11_0_0_7_00012, 0o0000000712),
    ] {
        let before = Worker {
            b,
            ..Worker::doing(instruction, 0)
        };
        before.becomes(&rt, Worker { a, p: 1, ..before })?;
    }
    Ok(())
}

// y and B7 added, less 100000 (octal) where there is a carry.
#[test]
fn a_carry_is_dropped(rt: HostRuntime) -> Result<(), Fail> {
    for (instruction, b7, a) in [
        (0o11_0_0_7_77777, 0o00001, 0o0000000000),
        (0o11_0_0_7_77776, 0o00001, 0o0000077777),
        (0o11_0_0_7_77777, 0o77777, 0o0000077776),
        (0o11_0_4_7_20000, 0o20000, 0o7777740000),
        (0o11_0_4_7_60000, 0o40000, 0o0000020000),
        (0o11_0_3_7_77777, 0o00006, FIRST),
        (0o11_0_3_7_00006, 0o77777, FIRST),
        (0o11_0_1_7_00002, 0o00003, 0o0000067012),
        (0o11_0_2_7_00000, 0o00005, 0o0000012345),
        (0o11_0_5_7_77777, 0o00006, 0o7777767012),
        (0o11_0_6_7_40005, 0o40000, 0o0000012345),
        (0o11_0_7_7_77777, 0o77777, A),
    ] {
        let before = Worker {
            a: A,
            b: [0, 1, 1, 1, 1, 1, 1, b7],
            ..Worker::doing(instruction, FIRST)
        };
        before.becomes(&rt, Worker { a, p: 1, ..before })?;
    }
    Ok(())
}

// The operand is the word at 2, and not that at P + 2.
#[test]
fn addresses_do_not_count_from_p(rt: HostRuntime) -> Result<(), Fail> {
    let mut before = Worker::doing(0, 0);
    before.words[2] = 0o1111111111;
    before.words[4] = 0o11_0_3_0_00002;
    before.words[6] = 0o6666666666;
    before.p = 4;
    let after = Worker {
        a: 0o1111111111,
        p: 5,
        ..before
    };
    before.becomes(&rt, after)
}
