// One program for two workers at different lower limits, over a word store and over an interleaved pair of parity stores.
use super::bench::{ADDING, executive, interrupted, over, spent, terms, told};
use engine::{Installation, State};
use pairs::{Pair, Rule};
use processor::RelativeAddress;
use std::alloc::Global;
use std::process::Abort;
use std::test::Fail;
use store::{CellAddress, Store};
use stores::ParityStore;
use words::word_bits;

// A good half of 0.
const Z: u16 = 0x8000;

// The halves of the program's words with what makes the number of ones odd, and those of the word 8.
const W0: [u16; 2] = [0x8000 + 0o11000, 0x8005];

const W1: [u16; 2] = [0o20000, 0x8003];

const W2: [u16; 2] = [0o15030, 7];

const W3: [u16; 2] = [0o77540, 0x8000 + 0o12];

const EIGHT: [u16; 2] = [Z, 8];

// The interleaved pair of two parity stores with these memories.
fn pair(heap: Global, even: &[u16], odd: &[u16]) -> Result<Pair<ParityStore, ParityStore>, Fail> {
    Ok(Pair {
        rule: Rule::Interleaved,
        first: ParityStore::new(even.iter().copied().collect(heap)?),
        second: ParityStore::new(odd.iter().copied().collect(heap)?),
    })
}

// Two workers are made and given the program, and run in turn.
fn two_workers<S: Store>(rt: &impl Abort, on: &mut Installation<S>) -> Result<(), Fail> {
    assert_eq!(rt; on.admit(0, CellAddress(3), terms(8, 0)), Ok(()));
    assert_eq!(rt; on.admit(7, CellAddress(14), terms(8, 0)), Ok(()));
    for place in [0, 7] {
        for (address, word) in ADDING.into_iter().enumerate() {
            let address = RelativeAddress(address as u32);
            assert_eq!(rt; on.load(place, address, word), Ok(()));
            assert_eq!(rt; on.look(place, address), Ok(word_bits(word)));
        }
    }
    for (steps, a, p) in [(2, 8, 2), (1, 8, 3)] {
        for place in [7, 0] {
            assert_eq!(rt; on.run(place, steps), Ok(spent(steps)), "at {place}");
            assert_eq!(rt;
                on.tell(place),
                Ok(told(State::Ready, a, 0, p)),
                "at {place}"
            );
        }
    }
    for place in [0, 7] {
        assert_eq!(rt;
            on.run(place, 10),
            Ok(interrupted(1, executive(10))),
            "at {place}"
        );
        assert_eq!(rt;
            on.tell(place),
            Ok(told(State::Held(executive(10)), 8, 0, 4)),
            "at {place}"
        );
        assert_eq!(rt;
            on.look(place, RelativeAddress(7)),
            Ok(word_bits(8)),
            "at {place}"
        );
    }
    Ok(())
}

// Even cells are the first store's and odd ones the second's: the cell 3 is number 1 of the second store, and 14 number 7 of the first.
#[test]
fn two_workers_over_a_pair(rt: HostRuntime) -> Result<(), Fail> {
    let store = pair(rt.alloc(), &[Z; 24], &[Z; 24])?;
    let mut installation = Installation::new(store);
    two_workers(&rt, &mut installation)?;
    let Pair { first, second, .. } = installation.into_store();
    let mut even = [Z; 24];
    even[4..6].copy_from_slice(&W1);
    even[6..8].copy_from_slice(&W3);
    even[10..12].copy_from_slice(&EIGHT);
    even[14..16].copy_from_slice(&W0);
    even[16..18].copy_from_slice(&W2);
    assert_eq!(rt; first.into_memory().as_slice(), even.as_slice());
    let mut odd = [Z; 24];
    odd[2..4].copy_from_slice(&W0);
    odd[4..6].copy_from_slice(&W2);
    odd[14..16].copy_from_slice(&W1);
    odd[16..18].copy_from_slice(&W3);
    odd[20..22].copy_from_slice(&EIGHT);
    assert_eq!(rt; second.into_memory().as_slice(), odd.as_slice());
    Ok(())
}
