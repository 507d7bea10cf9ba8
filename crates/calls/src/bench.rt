// What the trials share: an installation over a word store of 32 cells, with a ready worker at place 1 and a held one at place 6.
use engine::{Installation, Refusal, Span, State, Terms, Told};
use processor::{Ending, Ran, RelativeAddress, Report};
use records::Registers;
use std::alloc::Global;
use std::process::Abort;
use std::test::Fail;
use store::Half::{Lower, Upper};
use store::{CellAddress, Store};
use stores::WordStore;
use words::{Word, word_bits};

pub(crate) const UPPER_SPOILED: u32 = 0x8000_0000;

pub(crate) const LOWER_SPOILED: u32 = 0x4000_0000;

// The number in each cell that is none of a worker's.
pub(crate) const AROUND: u32 = UPPER_SPOILED + LOWER_SPOILED + 0o7654321076;

// A becomes 5 and then 8, and is put at 7; then an executive return with address 10.
pub(crate) const ADDING: [u32; 8] = [
    0o11_0_0_0_00005,
    0o20_0_0_0_00003,
    0o15_0_3_0_00007,
    0o77_54_0_00012,
    0,
    0,
    0,
    0,
];

// An executive return with address 10, and then spoiled words.
pub(crate) const RETURNING: [u32; 6] = [
    0o77_54_0_00012,
    UPPER_SPOILED + 5,
    LOWER_SPOILED + 0o1234500000,
    UPPER_SPOILED + LOWER_SPOILED + 6,
    0,
    0o1234567012,
];

// The memory of the scene: the ready worker has the cells 4 to 11, the held one 15 to 20.
pub(crate) const MEMORY: [u32; 32] = [
    AROUND,
    AROUND,
    AROUND,
    AROUND,
    ADDING[0],
    ADDING[1],
    ADDING[2],
    ADDING[3],
    0,
    0,
    0,
    0,
    AROUND,
    AROUND,
    AROUND,
    RETURNING[0],
    RETURNING[1],
    RETURNING[2],
    RETURNING[3],
    RETURNING[4],
    RETURNING[5],
    AROUND,
    AROUND,
    AROUND,
    AROUND,
    AROUND,
    AROUND,
    AROUND,
    AROUND,
    AROUND,
    AROUND,
    AROUND,
];

// A = 1234567012, Q = 7777777777, B1 = 12345, B7 = 77777 (octal) and P = 0.
pub(crate) const RECORD: [u8; 29] = [
    0x00, 0x1b, 0x01, 0x0a, 0x72, 0xee, 0x0a, 0x3f, 0xff, 0xff, 0xff, 0x14, 0xe5, 0x00, 0x00, 0x00,
    0x00, 0x00, 0x00, 0x00, 0x00, 0x00, 0x00, 0x7f, 0xff, 0x00, 0x00, 0x00, 0x00,
];

pub(crate) const fn terms(length: u32, entry: u32) -> Terms {
    Terms {
        length,
        entry: RelativeAddress(entry),
    }
}

pub(crate) const fn spent(steps: u32) -> Ran {
    Ran {
        steps,
        ending: Ending::Spent,
    }
}

pub(crate) const fn interrupted(steps: u32, report: Report) -> Ran {
    Ran {
        steps,
        ending: Ending::Interrupted(report),
    }
}

pub(crate) const fn executive(address: u32) -> Report {
    Report::ExecutiveReturn(RelativeAddress(address))
}

pub(crate) const fn span(lower: u32, length: u32) -> Span {
    Span {
        lower: CellAddress(lower),
        length,
    }
}

// What tell answers of a worker with these registers, and 0 in B1 to B7.
pub(crate) fn told(state: State, a: u32, q: u32, p: u32) -> Told {
    let mut registers = Registers::starting_at(p);
    registers.set_a(word_bits(a));
    registers.set_q(word_bits(q));
    Told { state, registers }
}

// The registers of the record, but for another P.
pub(crate) fn recorded(p: u32) -> Registers {
    let mut registers = Registers::starting_at(p);
    registers.set_a(word_bits(0o1234567012));
    registers.set_q(word_bits(0o7777777777));
    registers.set_b(1, 0o12345);
    registers.set_b(7, 0o77777);
    registers
}

// An installation over a word store with this memory.
pub(crate) fn over(heap: Global, memory: &[u32]) -> Result<Installation<WordStore>, Fail> {
    let numbers = memory.iter().copied().collect(heap)?;
    Ok(Installation::new(WordStore::new(numbers)))
}

// The scene. The held worker has the registers of the record, and did its executive return.
pub(crate) fn scene<R: Abort + Alloc<A = Global>>(rt: &R) -> Result<Installation<WordStore>, Fail> {
    let mut scene = over(rt.alloc(), &MEMORY)?;
    assert_eq!(rt; scene.admit(1, CellAddress(4), terms(8, 0)), Ok(()));
    assert_eq!(rt; scene.admit(6, CellAddress(15), terms(6, 0)), Ok(()));
    assert_eq!(rt; scene.restore(6, &RECORD), Ok(()));
    assert_eq!(rt; scene.run(6, 10), Ok(interrupted(1, executive(10))));
    Ok(scene)
}

// What the host sees of an installation: what tell and span answer of each place, and what look answers of the first eight words at the places 1 and 6.
#[derive(Clone, Copy, Debug, PartialEq, Eq)]
pub(crate) struct Seen {
    pub(crate) told: [Result<Told, Refusal>; 8],
    pub(crate) spans: [Result<Span, Refusal>; 8],
    pub(crate) words: [Result<Word, Refusal>; 8],
    pub(crate) held_words: [Result<Word, Refusal>; 8],
}

impl Seen {
    fn of<S: Store>(installation: &Installation<S>) -> Seen {
        let mut seen = Seen {
            told: [Err(Refusal::PlaceFree); 8],
            spans: [Err(Refusal::PlaceFree); 8],
            words: [Err(Refusal::PlaceFree); 8],
            held_words: [Err(Refusal::PlaceFree); 8],
        };
        for at in 0..8 {
            let address = RelativeAddress(at as u32);
            seen.told[at] = installation.tell(at as u32);
            seen.spans[at] = installation.span(at as u32);
            seen.words[at] = installation.look(1, address);
            seen.held_words[at] = installation.look(6, address);
        }
        seen
    }
}

// What is seen of the scene.
pub(crate) fn seen_first() -> Seen {
    let mut told_of = [Err(Refusal::PlaceFree); 8];
    told_of[1] = Ok(told(State::Ready, 0, 0, 0));
    told_of[6] = Ok(Told {
        state: State::Held(executive(10)),
        registers: recorded(1),
    });
    let mut spans = [Err(Refusal::PlaceFree); 8];
    spans[1] = Ok(span(4, 8));
    spans[6] = Ok(span(15, 6));
    Seen {
        told: told_of,
        spans,
        words: ADDING.map(|word| Ok(word_bits(word))),
        held_words: [
            Ok(word_bits(0o7754000012)),
            Err(Refusal::Spoiled(Upper)),
            Err(Refusal::Spoiled(Lower)),
            Err(Refusal::Spoiled(Upper)),
            Ok(word_bits(0)),
            Ok(word_bits(0o1234567012)),
            Err(Refusal::AddressPastLength),
            Err(Refusal::AddressPastLength),
        ],
    }
}

// The installation is seen so, and gives back a store with this memory.
pub(crate) fn ends(
    rt: &impl Abort,
    installation: Installation<WordStore>,
    seen: Seen,
    memory: &[u32],
) -> Result<(), Fail> {
    assert_eq!(rt; Seen::of(&installation), seen);
    let store = installation.into_store();
    assert_eq!(rt; store.into_memory().as_slice(), memory);
    Ok(())
}

// The scene is as it was: neither what is seen of it nor its memory has changed.
pub(crate) fn unchanged(rt: &impl Abort, scene: Installation<WordStore>) -> Result<(), Fail> {
    ends(rt, scene, seen_first(), &MEMORY)
}
