// The product of the operand and Q: entered, added, subtracted, put back and stored.
use super::bench::row;
use std::test::Fail;

const FIRST: u32 = 0o1234567012;

const MASK: u32 = 0o0707070707;

// The upper half of this word has sign 1.
const SECOND: u32 = 0o6543212345;

// The product of 1234567012 and 0707070707 is 0204060002.
#[test]
fn products_come_by_k(rt: HostRuntime) -> Result<(), Fail> {
    for (instruction, word, a, a_after) in [
        (0o40_0_0_0_67012, 0, FIRST, 0o0000060002),
        (0o40_0_1_0_00005, FIRST, FIRST, 0o0000060002),
        (0o40_0_2_0_00005, FIRST, FIRST, 0o0000010305),
        (0o40_0_3_0_00005, FIRST, 0, 0o0204060002),
        (0o40_0_4_0_67012, 0, FIRST, 0o0707060002),
        (0o40_0_5_0_00005, FIRST, FIRST, 0o0707060002),
        (0o40_0_6_0_00005, SECOND, FIRST, 0o0707060402),
        (0o40_0_7_0_00005, 0, FIRST, 0o0204060002),
        (0o41_0_1_0_00005, FIRST, 0o0000000001, 0o0000060003),
        (0o41_0_3_0_00005, FIRST, 0o0000000001, 0o0204060003),
        (0o41_0_6_0_00005, SECOND, 0o0000000001, 0o0707060403),
        (0o41_0_7_0_00005, 0, FIRST, 0o1440647014),
        (0o41_0_3_0_00005, FIRST, 0o7777777777, 0o0204060002),
        // less the product: its complement, of A = 0
        (0o42_0_1_0_00005, FIRST, 0o0000000000, 0o7777717775),
        (0o42_0_3_0_00005, FIRST, 0o0000000000, 0o7573717775),
        (0o42_0_5_0_00005, FIRST, 0o0707060004, 0o0000000002),
        (0o42_0_7_0_00005, 0, FIRST, 0o1030507010),
    ] {
        row(&rt, instruction, [word, a, MASK], [word, a_after, MASK], 1)?;
    }
    Ok(())
}

// Nothing but P can change, whatever k is.
#[test]
fn a_masked_comparison_changes_nothing(rt: HostRuntime) -> Result<(), Fail> {
    // the products are 60002, 10305, 0204060002, 0707060002, 0707060402 and, of A, 0204060002
    for (instruction, word, a, p) in [
        (0o43_4_0_0_67012, 0, 0o0000060002, 2),
        (0o43_4_1_0_00005, FIRST, 0o0000060002, 2),
        (0o43_4_2_0_00005, FIRST, 0o0000010305, 2),
        (0o43_4_3_0_00005, FIRST, 0o0204060002, 2),
        (0o43_4_4_0_67012, 0, 0o0707060002, 2),
        (0o43_4_5_0_00005, FIRST, 0o0707060002, 2),
        (0o43_4_6_0_00005, SECOND, 0o0707060402, 2),
        (0o43_4_7_0_00005, 0, 0o0204060002, 2),
        (0o43_4_7_0_00005, 0, FIRST, 1),
        (0o43_4_1_0_00005, FIRST, 0o0707060002, 1),
    ] {
        row(&rt, instruction, [word, a, MASK], [word, a, MASK], p)?;
    }
    Ok(())
}

#[test]
fn products_are_put_back(rt: HostRuntime) -> Result<(), Fail> {
    for (instruction, word, word_after, a) in [
        (0o44_0_1_0_00005, FIRST, 0o1234560002, 0o0000060002),
        (0o44_0_2_0_00005, FIRST, 0o1030567012, 0o0000010305),
        (0o44_0_3_0_00005, FIRST, 0o0204060002, 0o0204060002),
        (0o44_0_5_0_00005, FIRST, 0o1234560002, 0o0707060002),
        (0o44_0_6_0_00005, SECOND, 0o6040212345, 0o0707060402),
        // A is 1 before
        (0o45_0_1_0_00005, FIRST, 0o1234560003, 0o0000060003),
        (0o45_0_2_0_00005, FIRST, 0o1030667012, 0o0000010306),
        (0o45_0_3_0_00005, FIRST, 0o0204060003, 0o0204060003),
        (0o45_0_5_0_00005, FIRST, 0o1234560003, 0o0707060003),
        (0o45_0_6_0_00005, SECOND, 0o6040312345, 0o0707060403),
        // 1 less the product: the complement of the product less 1
        (0o46_0_1_0_00005, FIRST, 0o1234517776, 0o7777717776),
        (0o46_0_2_0_00005, FIRST, 0o6747367012, 0o7777767473),
        (0o46_0_3_0_00005, FIRST, 0o7573717776, 0o7573717776),
        (0o46_0_5_0_00005, FIRST, 0o1234517776, 0o7070717776),
        (0o46_0_6_0_00005, SECOND, 0o1737612345, 0o7070717376),
    ] {
        row(&rt, instruction, [word, 1, MASK], [word_after, a, MASK], 1)?;
    }
    Ok(())
}

// The complement of the product is 7573717775. The rows have the word, A and Q afterwards.
#[test]
fn products_are_stored(rt: HostRuntime) -> Result<(), Fail> {
    const OLD: u32 = 0o7070604050;
    for (instruction, after) in [
        (0o47_0_0_0_77777, [OLD, FIRST, 0o0204060002]),
        (0o47_0_1_0_00005, [0o7070660002, FIRST, MASK]),
        (0o47_0_2_0_00005, [0o6000204050, FIRST, MASK]),
        (0o47_0_3_0_00005, [0o0204060002, FIRST, MASK]),
        (0o47_0_4_0_77777, [OLD, 0o0204060002, MASK]),
        (0o47_0_5_0_00005, [0o7070617775, FIRST, MASK]),
        (0o47_0_6_0_00005, [0o1777504050, FIRST, MASK]),
    ] {
        row(&rt, instruction, [OLD, FIRST, MASK], after, 1)?;
    }
    Ok(())
}
