use super::{Kind, Layout, OutOfRange, Part, Setup, Side};
use pairs::{Pair, Rule};
use std::alloc::{AllocError, Global};
use std::test::Fail;
use store::{CellAddress, Fault, Half, Operation, Reply, Store, play, play_both};
use stores::{ParityStore, WordStore};
use words::word_bits;

// A pair of a pair and a word store. The inner pair's row is 11, 12, 13, 14, and the outer one's 11, 21, 12, 22, 13, 23.
fn nested(heap: Global) -> Result<Pair<Pair<WordStore, ParityStore>, WordStore>, AllocError> {
    let inner = Pair {
        rule: Rule::Continuous,
        first: WordStore::new(vec![in heap; 11, 12]?),
        second: ParityStore::new(vec![in heap; 32_768, 13, 32_768, 14]?),
    };
    Ok(Pair {
        rule: Rule::Interleaved,
        first: inner,
        second: WordStore::new(vec![in heap; 21, 22, 23]?),
    })
}

#[test]
fn pairs_nest(rt: HostRuntime) -> Result<(), Fail> {
    let mut outer = nested(rt.alloc())?;
    assert_eq!(rt; outer.count(), 6);
    assert_eq!(rt; outer.fetch(CellAddress(3)), Ok(word_bits(22)));
    assert_eq!(rt; outer.fetch(CellAddress(4)), Ok(word_bits(13)));
    assert_eq!(rt; outer.fetch(CellAddress(6)), Err(Fault::NoCell));
    assert_eq!(rt; outer.put_half(CellAddress(4), Half::Upper, 1), Ok(()));
    assert_eq!(rt; outer.fetch(CellAddress(4)), Ok(word_bits(0o0000100015)));
    assert_eq!(rt; outer.first.second.replace_number(0, 0), Some(1));
    assert_eq!(rt;
        outer.fetch(CellAddress(4)),
        Err(Fault::Spoiled(Half::Upper))
    );
    assert_eq!(rt; outer.fetch(CellAddress(2)), Ok(word_bits(12)));
    Ok(())
}

// What is done to both stores below.
const OPERATIONS: [Operation; 7] = [
    Operation::Count,
    Operation::Fetch(CellAddress(4)),
    Operation::PutWhole {
        address: CellAddress(5),
        word: 0o1234567012,
    },
    Operation::PutHalf {
        address: CellAddress(5),
        half: Half::Lower,
        value: 7,
    },
    Operation::Fetch(CellAddress(5)),
    Operation::PutWhole {
        address: CellAddress(6),
        word: 0,
    },
    Operation::Fetch(CellAddress(6)),
];

fn replies() -> [Reply; 7] {
    [
        Reply::Counted(6),
        Reply::Fetched(Ok(word_bits(13))),
        Reply::Put(Ok(())),
        Reply::Put(Ok(())),
        Reply::Fetched(Ok(word_bits(0o1234500007))),
        Reply::Put(Err(Fault::NoCell)),
        Reply::Fetched(Err(Fault::NoCell)),
    ]
}

#[test]
fn stores_with_equal_rows_answer_alike(rt: HostRuntime) -> Result<(), Fail> {
    let heap = rt.alloc();
    let mut words = WordStore::new(vec![in heap; 11, 21, 12, 22, 13, 23]?);
    let mut pairs = nested(heap)?;
    let (first, second) = play_both(heap, &mut words, &mut pairs, &OPERATIONS)?;
    assert_eq!(rt; first.as_slice(), replies().as_slice());
    assert_eq!(rt; second.as_slice(), replies().as_slice());
    Ok(())
}

#[test]
fn a_list_is_played_in_order(rt: HostRuntime) -> Result<(), Fail> {
    let heap = rt.alloc();
    let mut pairs = nested(heap)?;
    let answers = play(heap, &mut pairs, &OPERATIONS)?;
    assert_eq!(rt; answers.as_slice(), replies().as_slice());
    assert_eq!(rt; pairs.first.first.replace_number(0, 0), Some(11));
    assert_eq!(rt; pairs.second.replace_number(2, 0), Some(0o1234500007));
    Ok(())
}

// No contract says that there is memory for as many answers.
#[test]
fn a_long_list_is_played(rt: HostRuntime) -> Result<(), Fail> {
    let heap = rt.alloc();
    let operations = vec![in heap; Operation::Count; 1_000]?;
    let mut pairs = nested(heap)?;
    let answers = play(heap, &mut pairs, operations.as_slice())?;
    assert_eq!(rt; answers.len(), 1_000);
    assert_eq!(rt; answers.last().copied(), Some(Reply::Counted(6)));
    Ok(())
}

// Nor for memories of the largest size that a script can ask for.
#[test]
fn the_largest_memories_are_made(rt: HostRuntime) -> Result<(), Fail> {
    for first in [Kind::Word, Kind::Parity] {
        for second in [Kind::Word, Kind::Parity] {
            let size = 262_144;
            let layout = Layout::Pair {
                rule: Rule::Interleaved,
                first: Part { kind: first, size },
                second: Part { kind: second, size },
            };
            let mut setup = Setup::new(rt.alloc(), layout)?;
            let count = setup.perform(Operation::Count);
            assert_eq!(rt; count, Reply::Counted(131_072));
        }
    }
    Ok(())
}

// A word memory of two cells, and a parity memory of two cells after it.
const LAYOUT: Layout = Layout::Pair {
    rule: Rule::Continuous,
    first: Part {
        kind: Kind::Word,
        size: 2,
    },
    second: Part {
        kind: Kind::Parity,
        size: 4,
    },
};

#[test]
fn damage_is_answered_where_it_was_done(rt: HostRuntime) -> Result<(), Fail> {
    let mut setup = Setup::new(rt.alloc(), LAYOUT)?;
    let fetch = Operation::Fetch(CellAddress(2));
    assert_eq!(rt; setup.perform(Operation::Count), Reply::Counted(4));
    assert_eq!(rt; setup.perform(fetch), Reply::Fetched(Ok(word_bits(0))));
    assert_eq!(rt; setup.replace_number(Side::First, 1, 0x8000_0000), Ok(()));
    assert_eq!(rt; setup.perform(fetch), Reply::Fetched(Ok(word_bits(0))));
    assert_eq!(rt; setup.replace_number(Side::Second, 1, 3), Ok(()));
    assert_eq!(rt;
        setup.perform(fetch),
        Reply::Fetched(Err(Fault::Spoiled(Half::Lower)))
    );
    assert_eq!(rt; setup.replace_number(Side::Second, 4, 0), Err(OutOfRange));
    assert_eq!(rt;
        setup.replace_number(Side::Second, 0, 65_536),
        Err(OutOfRange)
    );
    Ok(())
}
