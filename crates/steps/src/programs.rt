// The worked programs, from lower limit 0 on and amid the cells of others.
use super::bench::{AROUND, illegal, protection};
use processor::{Ending, Limits, Ran, ReferenceKind, RelativeAddress, Report, run};
use records::Registers;
use std::alloc::Global;
use std::process::Abort;
use std::test::Fail;
use store::CellAddress;
use stores::WordStore;
use words::word_bits;

// A program and a budget, how the run ends, and A, Q, P and the words after it. All registers begin with 0.
#[derive(Clone, Copy)]
struct Case {
    words: [u32; 8],
    length: u32,
    budget: u32,
    ran: Ran,
    a: u32,
    q: u32,
    p: u32,
    left: [u32; 8],
}

const ADDING: [u32; 8] = [
    0o11_0_0_0_00005,
    0o20_0_0_0_00003,
    0o15_0_3_0_00007,
    0o77_54_0_00012,
    0,
    0,
    0,
    0,
];

const fn spent(steps: u32) -> Ran {
    Ran {
        steps,
        ending: Ending::Spent,
    }
}

const fn interrupted(steps: u32, report: Report) -> Ran {
    Ran {
        steps,
        ending: Ending::Interrupted(report),
    }
}

// The words from the lower limit on, and cells of others before and after.
fn memory_with(heap: Global, lower: usize, words: [u32; 8]) -> Result<Vec<u32>, Fail> {
    let mut memory = Vec::new(heap);
    for _ in 0..lower {
        memory.push(AROUND)?;
    }
    for word in words {
        memory.push(word)?;
    }
    for _ in 0..3 {
        memory.push(AROUND)?;
    }
    Ok(memory)
}

fn check_from(rt: &impl Abort, heap: Global, case: Case, lower: u32) -> Result<(), Fail> {
    let mut store = WordStore::new(memory_with(heap, lower as usize, case.words)?);
    let limits = Limits::new(CellAddress(lower), case.length).ok_or("no such limits")?;
    let mut registers = Registers::starting_at(0);
    let ran = run(&mut store, limits, &mut registers, case.budget);
    assert_eq!(rt; ran, case.ran, "from {lower} on");
    let mut after = Registers::starting_at(case.p);
    after.set_a(word_bits(case.a));
    after.set_q(word_bits(case.q));
    assert_eq!(rt; registers, after, "from {lower} on");
    let memory = memory_with(heap, lower as usize, case.left)?;
    assert_eq!(rt;
        store.into_memory().as_slice(),
        memory.as_slice(),
        "from {lower} on"
    );
    Ok(())
}

fn check(rt: &impl Abort, heap: Global, case: Case) -> Result<(), Fail> {
    check_from(rt, heap, case, 0)?;
    check_from(rt, heap, case, 5)
}

#[test]
fn five_and_three_are_added(rt: HostRuntime) -> Result<(), Fail> {
    let mut left = ADDING;
    left[7] = 8;
    let case = Case {
        words: ADDING,
        length: 8,
        budget: 10,
        ran: interrupted(4, Report::ExecutiveReturn(RelativeAddress(10))),
        a: 8,
        q: 0,
        p: 4,
        left,
    };
    check(&rt, rt.alloc(), case)
}

#[test]
fn seven_words_are_too_few(rt: HostRuntime) -> Result<(), Fail> {
    let case = Case {
        words: ADDING,
        length: 7,
        budget: 10,
        ran: interrupted(3, protection(ReferenceKind::Write, 7)),
        a: 8,
        q: 0,
        p: 3,
        left: ADDING,
    };
    check(&rt, rt.alloc(), case)
}

#[test]
fn a_budget_is_spent(rt: HostRuntime) -> Result<(), Fail> {
    for (length, budget, a, p) in [(7, 2, 8, 2), (8, 2, 8, 2), (8, 1, 5, 1), (8, 0, 0, 0)] {
        let case = Case {
            words: ADDING,
            length,
            budget,
            ran: spent(budget),
            a,
            q: 0,
            p,
            left: ADDING,
        };
        check(&rt, rt.alloc(), case)?;
    }
    Ok(())
}

#[test]
fn a_jump_leaves_the_words(rt: HostRuntime) -> Result<(), Fail> {
    let words = [0o60_1_0_0_00010, 0, 0, 0, 0, 0, 0, 0];
    let case = Case {
        words,
        length: 8,
        budget: 10,
        ran: interrupted(2, protection(ReferenceKind::Fetch, 8)),
        a: 0,
        q: 0,
        p: 8,
        left: words,
    };
    check(&rt, rt.alloc(), case)
}

#[test]
fn a_replace_needs_a_cell(rt: HostRuntime) -> Result<(), Fail> {
    let words = [0o24_0_0_0_00000, 0, 0, 0, 0, 0, 0, 0];
    let case = Case {
        words,
        length: 8,
        budget: 10,
        ran: interrupted(1, illegal(0)),
        a: 0,
        q: 0,
        p: 1,
        left: words,
    };
    check(&rt, rt.alloc(), case)
}

#[test]
fn one_is_scaled_and_a_sign_spreads(rt: HostRuntime) -> Result<(), Fail> {
    for (words, a, q) in [
        ([0o11_0_0_0_00001, 0o77_30_0_00000], 0o2000000000, 28),
        ([0o11_0_3_0_00002, 0o02_0_0_0_00035], 0o7777777777, 0),
    ] {
        let words = [words[0], words[1], 0o4000000000, 0, 0, 0, 0, 0];
        let case = Case {
            words,
            length: 8,
            budget: 2,
            ran: spent(2),
            a,
            q,
            p: 2,
            left: words,
        };
        check(&rt, rt.alloc(), case)?;
    }
    Ok(())
}

// B1 becomes 3; then 2 is added to A and B1 counted down, four times in all; B1 ends as 0, as it began.
#[test]
fn a_loop_is_counted_down(rt: HostRuntime) -> Result<(), Fail> {
    let words = [
        0o12_1_0_0_00003,
        0o20_0_0_0_00002,
        0o72_1_0_0_00001,
        0o77_54_1_00000,
        0,
        0,
        0,
        0,
    ];
    for (budget, ran, p) in [
        (
            10,
            interrupted(10, Report::ExecutiveReturn(RelativeAddress(0))),
            4,
        ),
        (9, spent(9), 3),
    ] {
        let case = Case {
            words,
            length: 8,
            budget,
            ran,
            a: 8,
            q: 0,
            p,
            left: words,
        };
        check(&rt, rt.alloc(), case)?;
    }
    Ok(())
}

// 0o64 leaves the way back, 1, in the lower half of the word at 4; 0o60 goes by it.
#[test]
fn a_routine_comes_back(rt: HostRuntime) -> Result<(), Fail> {
    let words = [
        0o64_1_0_0_00004,
        0o77_54_0_00002,
        0,
        0,
        0o1234500000,
        0o11_0_0_0_00007,
        0o60_1_1_0_00004,
        0,
    ];
    let mut left = words;
    left[4] = 0o1234500001;
    let case = Case {
        words,
        length: 8,
        budget: 100,
        ran: interrupted(4, Report::ExecutiveReturn(RelativeAddress(2))),
        a: 7,
        q: 0,
        p: 2,
        left,
    };
    check(&rt, rt.alloc(), case)
}
