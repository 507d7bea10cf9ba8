// Calls as values, and lists of them.
use super::bench::{AROUND, executive, span, terms};
use engine::{Answer, Call, Refusal, Request, replay_both};
use processor::RelativeAddress;
use std::alloc::Global;
use std::test::Fail;
use store::CellAddress;
use stores::WordStore;
use words::word_bits;

fn admit(place: u32, lower: u32, length: u32) -> Call<Vec<u8>> {
    Call::Admit {
        place,
        lower: CellAddress(lower),
        terms: terms(length, 0),
    }
}

fn ask(place: u32, request: Request<Vec<u8>>) -> Call<Vec<u8>> {
    Call::Ask { place, request }
}

fn load(place: u32, address: u32, word: u32) -> Call<Vec<u8>> {
    ask(
        place,
        Request::Load {
            address: RelativeAddress(address),
            word,
        },
    )
}

fn look(place: u32, address: u32) -> Call<Vec<u8>> {
    ask(
        place,
        Request::Look {
            address: RelativeAddress(address),
        },
    )
}

fn run(place: u32, budget: u32) -> Call<Vec<u8>> {
    ask(place, Request::Run { budget })
}

fn fixed(cause: u32, cell: u32) -> Call<Vec<u8>> {
    Call::FixedAddress {
        cause,
        address: CellAddress(cell),
    }
}

fn bytes(heap: Global, bytes: &[u8]) -> Result<Vec<u8>, Fail> {
    Ok(bytes.iter().copied().collect(heap)?)
}

// The buffer of a save comes back in the answer, in its whole length.
// A worker is made, given an executive return, run, answered, restored and retired; each answer by what came before it.
// Each list is played on its own store: 5 is put at address 1 of the first, and 7 at address 0 of the second.
#[test]
fn two_lists_are_played_on_two_stores(rt: HostRuntime) -> Result<(), Fail> {
    let first = WordStore::new(vec![in rt.alloc(); AROUND, 1, 2, 3]?);
    let second = WordStore::new(vec![in rt.alloc(); 4, 5]?);
    let first_calls = vec![in rt.alloc(); admit(0, 1, 3), load(0, 1, 5), look(0, 1)]?;
    let second_calls = vec![in rt.alloc();
        admit(5, 0, 3),
        admit(5, 0, 2),
        load(5, 0, 7),
        look(5, 1),
    ]?;
    let Ok((first, second)) = replay_both(rt.alloc(), first, first_calls, second, second_calls)
    else {
        panic!(rt; "there was no memory for the answers");
    };
    let want = vec![in rt.alloc();
        Answer::Admitted(Ok(())),
        Answer::Loaded(Ok(())),
        Answer::Looked(Ok(word_bits(5))),
    ]?;
    assert_eq!(rt; first.answers, want);
    let want = vec![in rt.alloc();
        Answer::Admitted(Err(Refusal::PastStore)),
        Answer::Admitted(Ok(())),
        Answer::Loaded(Ok(())),
        Answer::Looked(Ok(word_bits(5))),
    ]?;
    assert_eq!(rt; second.answers, want);
    assert_eq!(rt; first.installation.span(0), Ok(span(1, 3)));
    assert_eq!(rt; first.installation.tell(5), Err(Refusal::PlaceFree));
    assert_eq!(rt; second.installation.span(5), Ok(span(0, 2)));
    assert_eq!(rt; second.installation.tell(0), Err(Refusal::PlaceFree));
    let memory = [AROUND, 1, 5, 3];
    assert_eq!(rt;
        first.installation.into_store().into_memory().as_slice(),
        memory.as_slice()
    );
    assert_eq!(rt;
        second.installation.into_store().into_memory().as_slice(),
        [7, 5].as_slice()
    );
    Ok(())
}
