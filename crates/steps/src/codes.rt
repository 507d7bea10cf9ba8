// Illegal codes, and illegal k.
use super::bench::{Worker, illegal};
use std::test::Fail;

// One to f, to g and to k.
const F: u32 = 0o01_0_0_0_00000;

const G: u32 = 0o00_01_0_00000;

const K: u32 = 0o00_0_1_0_00000;

#[test]
fn other_functions_are_illegal(rt: HostRuntime) -> Result<(), Fail> {
    let functions: [u32; 25] = [
        0o00, 0o04, 0o13, 0o17, 0o22, 0o23, 0o26, 0o27, 0o30, 0o31, 0o32, 0o33, 0o34, 0o35, 0o61,
        0o62, 0o63, 0o65, 0o66, 0o67, 0o70, 0o73, 0o74, 0o75, 0o76,
    ];
    for f in functions {
        for rest in [0o0_0_0_00000, 0o1_3_0_00005, 0o0_7_0_00010, 0o7_5_7_77777] {
            let before = Worker {
                a: 5,
                q: 6,
                b: [0, 1, 2, 3, 4, 5, 6, 7],
                ..Worker::doing(f.wrapping_mul(F) | rest, 7)
            };
            before.reports(&rt, illegal(0), 1)?;
        }
    }
    Ok(())
}

// The ranges leave out the thirteen codes that there are.
#[test]
fn other_codes_of_77_are_illegal(rt: HostRuntime) -> Result<(), Fail> {
    let ranges: [(u32, u32); 6] = [
        (0o00, 0o21),
        (0o22, 0o23),
        (0o24, 0o25),
        (0o26, 0o27),
        (0o32, 0o51),
        (0o60, 0o100),
    ];
    for (first, end) in ranges {
        for g in first..end {
            let before = Worker {
                a: 5,
                q: 6,
                ..Worker::doing(0o77_00_0_00005 | g.wrapping_mul(G), 7)
            };
            before.reports(&rt, illegal(0), 1)?;
        }
    }
    Ok(())
}

// The k is judged before anything is referred to: neither the spoiled word at 5 nor the missing one at 8 matters.
#[test]
fn replace_instructions_need_a_cell(rt: HostRuntime) -> Result<(), Fail> {
    let functions: [u32; 11] = [
        0o24, 0o25, 0o36, 0o37, 0o44, 0o45, 0o46, 0o54, 0o55, 0o56, 0o57,
    ];
    for f in functions {
        for k in [0, 4, 7] {
            for rest in [0o0_0_0_00005, 0o1_0_0_00005, 0o0_0_0_00010] {
                let before = Worker {
                    a: 5,
                    q: 6,
                    ..Worker::doing(f.wrapping_mul(F) | k * K | rest, 0xc000_0007)
                };
                before.reports(&rt, illegal(0), 1)?;
            }
        }
    }
    Ok(())
}

#[test]
fn some_are_illegal_with_k_7(rt: HostRuntime) -> Result<(), Fail> {
    for instruction in [
        0o47_0_7_0_00005,
        0o47_1_7_0_00010,
        0o50_0_7_0_00005,
        0o50_1_7_0_00010,
        0o52_0_7_0_00005,
        0o52_1_7_0_00010,
        0o53_0_7_0_00005,
        0o53_1_7_0_00010,
    ] {
        let before = Worker {
            a: 5,
            q: 6,
            ..Worker::doing(instruction, 7)
        };
        before.reports(&rt, illegal(0), 1)?;
    }
    Ok(())
}

// An illegal instruction is reported by its own address.
#[test]
fn its_address_is_reported(rt: HostRuntime) -> Result<(), Fail> {
    let mut before = Worker::doing(0o11_0_0_0_00005, 0);
    for p in [3, 6, 7] {
        before.p = p;
        before.reports(&rt, illegal(p), p + 1)?;
    }
    Ok(())
}
