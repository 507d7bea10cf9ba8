use super::{ParityStore, WordStore};
use std::test::Fail;
use store::{CellAddress, Fault, Half, Store, probe_half, probe_whole};
use words::word_bits;

const WORD: u32 = 0o1234567012;

const UPPER_SPOILED: u32 = 0x8000_0000;

const LOWER_SPOILED: u32 = 0x4000_0000;

#[test]
fn fetch_tells_the_upper_mark_first(rt: HostRuntime) -> Result<(), Fail> {
    let store = WordStore::new(vec![in rt.alloc();
        WORD,
        WORD + LOWER_SPOILED,
        UPPER_SPOILED,
        0xffff_ffff,
    ]?);
    assert_eq!(rt; store.fetch(CellAddress(0)), Ok(word_bits(WORD)));
    assert_eq!(rt;
        store.fetch(CellAddress(1)),
        Err(Fault::Spoiled(Half::Lower))
    );
    assert_eq!(rt;
        store.fetch(CellAddress(2)),
        Err(Fault::Spoiled(Half::Upper))
    );
    assert_eq!(rt;
        store.fetch(CellAddress(3)),
        Err(Fault::Spoiled(Half::Upper))
    );
    Ok(())
}

#[test]
fn puts_mend_what_they_put(rt: HostRuntime) -> Result<(), Fail> {
    let mut store = WordStore::new(vec![in rt.alloc();
        WORD + UPPER_SPOILED,
        WORD + LOWER_SPOILED,
        0xffff_ffff,
    ]?);
    assert_eq!(rt;
        probe_half(&mut store, CellAddress(0), Half::Lower, 1),
        Err(Fault::Spoiled(Half::Upper))
    );
    assert_eq!(rt;
        probe_half(&mut store, CellAddress(0), Half::Upper, 0o77777),
        Ok(word_bits(0o7777767012))
    );
    assert_eq!(rt;
        probe_half(&mut store, CellAddress(1), Half::Upper, 1),
        Err(Fault::Spoiled(Half::Lower))
    );
    assert_eq!(rt;
        probe_half(&mut store, CellAddress(1), Half::Lower, 0o100001),
        Ok(word_bits(0o1234500001))
    );
    assert_eq!(rt;
        probe_whole(&mut store, CellAddress(2), 0xffff_ffff),
        Ok(word_bits(0o7777777777))
    );
    Ok(())
}

#[test]
fn there_is_no_cell_at_the_count(rt: HostRuntime) -> Result<(), Fail> {
    let mut store = WordStore::new(vec![in rt.alloc(); 1, 2, 3]?);
    assert_eq!(rt; store.count(), 3);
    assert_eq!(rt; store.fetch(CellAddress(2)), Ok(word_bits(3)));
    assert_eq!(rt; store.fetch(CellAddress(3)), Err(Fault::NoCell));
    assert_eq!(rt; store.put_whole(CellAddress(3), 0), Err(Fault::NoCell));
    assert_eq!(rt;
        store.put_half(CellAddress(0xffff_ffff), Half::Upper, 0),
        Err(Fault::NoCell)
    );
    Ok(())
}

#[test]
fn numbers_past_the_last_cell_stay(rt: HostRuntime) -> Result<(), Fail> {
    let mut store = WordStore::new(vec![in rt.alloc(); 7; 131_074]?);
    assert_eq!(rt; store.count(), 131_072);
    assert_eq!(rt;
        probe_whole(&mut store, CellAddress(131_071), 5),
        Ok(word_bits(5))
    );
    assert_eq!(rt;
        store.put_whole(CellAddress(131_072), 5),
        Err(Fault::NoCell)
    );
    assert_eq!(rt; store.replace_number(131_073, 9), Some(7));
    assert_eq!(rt; store.replace_number(131_074, 9), None);
    let memory = store.into_memory();
    assert_eq!(rt; memory.get(131_071).copied(), Some(5));
    assert_eq!(rt; memory.get(131_072).copied(), Some(7));
    assert_eq!(rt; memory.get(131_073).copied(), Some(9));
    Ok(())
}

#[test]
fn a_half_is_good_if_its_ones_are_odd(rt: HostRuntime) -> Result<(), Fail> {
    let mut store = ParityStore::new(vec![in rt.alloc(); 32_768, 32_771, 0, 3, 0, 32_768, 1, 3]?);
    assert_eq!(rt; store.fetch(CellAddress(0)), Ok(word_bits(3)));
    assert_eq!(rt;
        store.fetch(CellAddress(1)),
        Err(Fault::Spoiled(Half::Upper))
    );
    assert_eq!(rt;
        store.fetch(CellAddress(2)),
        Err(Fault::Spoiled(Half::Upper))
    );
    assert_eq!(rt;
        store.fetch(CellAddress(3)),
        Err(Fault::Spoiled(Half::Lower))
    );
    assert_eq!(rt; store.replace_number(7, 2), Some(3));
    assert_eq!(rt; store.fetch(CellAddress(3)), Ok(word_bits(0o0000100002)));
    Ok(())
}

#[test]
fn parity_puts_mend_what_they_put(rt: HostRuntime) -> Result<(), Fail> {
    let mut store = ParityStore::new(vec![in rt.alloc(); 0, 32_771, 32_771, 3, 0, 3]?);
    assert_eq!(rt;
        probe_half(&mut store, CellAddress(0), Half::Lower, 1),
        Err(Fault::Spoiled(Half::Upper))
    );
    assert_eq!(rt;
        probe_half(&mut store, CellAddress(0), Half::Upper, 0o77777),
        Ok(word_bits(0o7777700003))
    );
    assert_eq!(rt;
        probe_half(&mut store, CellAddress(1), Half::Upper, 1),
        Err(Fault::Spoiled(Half::Lower))
    );
    assert_eq!(rt;
        probe_half(&mut store, CellAddress(1), Half::Lower, 0o100001),
        Ok(word_bits(0o0000300001))
    );
    assert_eq!(rt;
        probe_whole(&mut store, CellAddress(2), 0o10000300000),
        Ok(word_bits(0o0000300000))
    );
    assert_eq!(rt;
        store.into_memory().as_slice(),
        [32_767, 32_771, 32_771, 1, 32_771, 32_768].as_slice()
    );
    Ok(())
}

#[test]
fn an_odd_last_number_is_no_cell(rt: HostRuntime) -> Result<(), Fail> {
    let mut store = ParityStore::new(vec![in rt.alloc(); 7; 5]?);
    assert_eq!(rt; store.count(), 2);
    assert_eq!(rt; store.fetch(CellAddress(1)), Ok(word_bits(0o0000700007)));
    assert_eq!(rt; store.fetch(CellAddress(2)), Err(Fault::NoCell));
    assert_eq!(rt; store.put_whole(CellAddress(2), 0), Err(Fault::NoCell));
    assert_eq!(rt;
        store.put_half(CellAddress(2), Half::Upper, 0),
        Err(Fault::NoCell)
    );
    assert_eq!(rt;
        store.put_half(CellAddress(0xffff_ffff), Half::Lower, 0),
        Err(Fault::NoCell)
    );
    assert_eq!(rt; store.into_memory().get(4).copied(), Some(7));
    Ok(())
}

#[test]
fn numbers_past_131072_cells_stay(rt: HostRuntime) -> Result<(), Fail> {
    let mut store = ParityStore::new(vec![in rt.alloc(); 7; 262_147]?);
    assert_eq!(rt; store.count(), 131_072);
    assert_eq!(rt;
        probe_whole(&mut store, CellAddress(131_071), 5),
        Ok(word_bits(5))
    );
    assert_eq!(rt;
        store.put_whole(CellAddress(131_072), 5),
        Err(Fault::NoCell)
    );
    assert_eq!(rt; store.replace_number(262_146, 9), Some(7));
    assert_eq!(rt; store.replace_number(262_147, 9), None);
    let memory = store.into_memory();
    assert_eq!(rt; memory.get(262_142).copied(), Some(32_768));
    assert_eq!(rt; memory.get(262_143).copied(), Some(32_773));
    assert_eq!(rt; memory.get(262_144).copied(), Some(7));
    assert_eq!(rt; memory.get(262_145).copied(), Some(7));
    assert_eq!(rt; memory.get(262_146).copied(), Some(9));
    Ok(())
}
