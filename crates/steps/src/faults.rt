// Protection and parity of fetches, reads and puts.
use super::bench::{AROUND, LOWER_SPOILED, UPPER_SPOILED, Worker, illegal, parity, protection};
use processor::ReferenceKind::{Fetch, Read, Write};
use processor::{Limits, Reference, RelativeAddress, Report, step};
use records::Registers;
use std::test::Fail;
use store::Half::{Lower, Upper};
use store::{CellAddress, Fault, Half};
use stores::WordStore;
use words::word_bits;

const BOTH_SPOILED: u32 = UPPER_SPOILED + LOWER_SPOILED;

const FIRST: u32 = 0o1234567012;

// Past the length the cells of others are spoiled, and it is protection all the same.
#[test]
fn fetches_are_tried(rt: HostRuntime) -> Result<(), Fail> {
    for p in [8, 9, 100, 32_767, 32_768, 131_071] {
        let before = Worker {
            p,
            ..Worker::busy(0, 0)
        };
        before.reports(&rt, protection(Fetch, p), p)?;
    }
    for (marks, half) in [
        (UPPER_SPOILED, Upper),
        (LOWER_SPOILED, Lower),
        (BOTH_SPOILED, Upper),
    ] {
        Worker::busy(0o11_0_0_0_00005 + marks, 0).reports(&rt, parity(Fetch, 0, half), 0)?;
        // an illegal code is not looked at before
        Worker::busy(marks, 0).reports(&rt, parity(Fetch, 0, half), 0)?;
        let mut before = Worker {
            p: 7,
            ..Worker::busy(0, 0)
        };
        before.words[7] = 0o11_0_0_0_00005 + marks;
        before.reports(&rt, parity(Fetch, 7, half), 7)?;
    }
    Ok(())
}

// A read takes the whole cell, whichever half is used.
#[test]
fn reads_are_tried(rt: HostRuntime) -> Result<(), Fail> {
    for instruction in [
        0o11_0_1_0_00005,
        0o11_0_2_0_00005,
        0o11_0_3_0_00005,
        0o11_0_5_0_00005,
        0o11_0_6_0_00005,
        0o12_3_1_0_00005,
        0o24_0_1_0_00005,
        0o37_0_2_0_00005,
        0o46_0_3_0_00005,
        0o54_0_5_0_00005,
        0o57_0_6_0_00005,
        0o43_1_1_0_00005,
        0o60_0_1_0_00005,
        0o64_0_1_0_00005,
        0o71_0_2_0_00005,
        0o72_0_2_0_00005,
        0o77_21_0_00005,
        0o77_23_0_00005,
        0o77_27_0_00005,
        0o77_52_0_00005,
        0o77_53_0_00005,
        0o77_57_0_00005,
    ] {
        for (marks, half) in [
            (UPPER_SPOILED, Upper),
            (LOWER_SPOILED, Lower),
            (BOTH_SPOILED, Upper),
        ] {
            Worker::busy(instruction, 0o74 + marks).reports(&rt, parity(Read, 5, half), 0)?;
        }
        // past the length nothing is looked at
        Worker::busy(instruction + 3, 7).reports(&rt, protection(Read, 8), 1)?;
        Worker::busy(instruction | 0o77777, 7).reports(&rt, protection(Read, 0o77777), 1)?;
    }
    Ok(())
}

// The count of a shift is judged after the read that it comes by.
#[test]
fn a_count_is_read_first(rt: HostRuntime) -> Result<(), Fail> {
    for instruction in [
        0o01_1_3_0_00005,
        0o02_1_1_0_00005,
        0o03_1_3_0_00005,
        0o05_1_5_0_00005,
        0o06_1_3_0_00005,
        0o07_1_1_0_00005,
    ] {
        Worker::busy(instruction, 0o74).reports(&rt, illegal(0), 1)?;
        Worker::busy(instruction, 0o74 + UPPER_SPOILED).reports(&rt, parity(Read, 5, Upper), 0)?;
        Worker::busy(instruction + 3, 0o74).reports(&rt, protection(Read, 8), 1)?;
    }
    Ok(())
}

// A put of a whole word mends the cell.
#[test]
fn whole_puts_mend(rt: HostRuntime) -> Result<(), Fail> {
    for (instruction, word) in [
        (0o15_0_3_0_00005, FIRST),
        (0o15_0_7_0_00005, 0o6543210765),
        (0o14_0_3_0_00005, 0o7654321076),
        (0o16_5_3_0_00005, 5),
        // the product of A and Q
        (0o47_0_3_0_00005, 0o1214121012),
    ] {
        for marks in [UPPER_SPOILED, LOWER_SPOILED, BOTH_SPOILED] {
            let before = Worker::busy(instruction, 0o3333344444 + marks);
            let mut after = Worker { p: 1, ..before };
            after.words[5] = word;
            before.becomes(&rt, after)?;
        }
        Worker::busy(instruction + 3, 7).reports(&rt, protection(Write, 8), 1)?;
        Worker::busy(instruction | 0o77777, 7).reports(&rt, protection(Write, 0o77777), 1)?;
    }
    Ok(())
}

// A put of a half mends it, and fails if the other one is spoiled.
const HALF_PUTS: [(u32, u32, u32, Half, u32); 7] = [
    (
        0o15_0_1_0_00005,
        LOWER_SPOILED,
        UPPER_SPOILED,
        Upper,
        0o3333367012,
    ),
    (
        0o15_0_2_0_00005,
        UPPER_SPOILED,
        LOWER_SPOILED,
        Lower,
        0o6701244444,
    ),
    (
        0o15_0_5_0_00005,
        LOWER_SPOILED,
        UPPER_SPOILED,
        Upper,
        0o3333310765,
    ),
    (
        0o15_0_6_0_00005,
        UPPER_SPOILED,
        LOWER_SPOILED,
        Lower,
        0o1076544444,
    ),
    (
        0o14_0_1_0_00005,
        LOWER_SPOILED,
        UPPER_SPOILED,
        Upper,
        0o3333321076,
    ),
    (
        0o16_7_2_0_00005,
        UPPER_SPOILED,
        LOWER_SPOILED,
        Lower,
        0o0000744444,
    ),
    (
        0o47_0_1_0_00005,
        LOWER_SPOILED,
        UPPER_SPOILED,
        Upper,
        0o3333321012,
    ),
];

#[test]
fn half_puts_look_beside(rt: HostRuntime) -> Result<(), Fail> {
    for (instruction, own, other, half, word) in HALF_PUTS {
        let before = Worker::busy(instruction, 0o3333344444 + own);
        let mut after = Worker { p: 1, ..before };
        after.words[5] = word;
        before.becomes(&rt, after)?;
        let report = parity(Write, 5, half);
        Worker::busy(instruction, 0o3333344444 + other).reports(&rt, report, 0)?;
        Worker::busy(instruction, 0o3333344444 + BOTH_SPOILED).reports(&rt, report, 0)?;
        Worker::busy(instruction + 3, 7).reports(&rt, protection(Write, 8), 1)?;
    }
    Ok(())
}

// Limits can reach past the store; there it has no cell.
#[test]
fn there_may_be_no_cell(rt: HostRuntime) -> Result<(), Fail> {
    let mut store = WordStore::new(vec![in rt.alloc();
        AROUND,
        0o15_0_3_0_00002,
        0o11_0_3_0_00002,
    ]?);
    let limits = Limits::new(CellAddress(1), 8).ok_or("no such limits")?;
    for (p, kind, address) in [(0, Write, 2), (1, Read, 2), (2, Fetch, 2)] {
        let mut registers = Registers::starting_at(p);
        registers.set_a(word_bits(FIRST));
        let before = registers;
        let reference = Reference {
            kind,
            address: RelativeAddress(address),
        };
        assert_eq!(rt;
            step(&mut store, limits, &mut registers),
            Err(Report::Parity(reference, Fault::NoCell))
        );
        assert_eq!(rt; registers, before);
    }
    assert_eq!(rt;
        store.into_memory().as_slice(),
        [AROUND, 0o15_0_3_0_00002, 0o11_0_3_0_00002].as_slice()
    );
    Ok(())
}
