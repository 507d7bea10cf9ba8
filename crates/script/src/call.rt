// The calls of a script, and how words make one.
#![tactic(auto, using(crate::proofs::Texts::length_texts, crate::proofs::Texts::text_at))]

ghost use Rattle.std.specs.Prelude.{◌≡◌, IsOk, IsTrue, is_ok, vec_items};
ghost use Rattle.hex.specs.Hex.{decode_of};
ghost use Rattle.engine.specs.Bytes.{call_with};
ghost use Rattle.script.specs.Calls.{read_call, buffer_of, bytes_of, admit_call, load_call, look_call, run_call, answer_call, save_call, restore_call, tell_call, retire_call, span_call, fixed_call, plain_call};
ghost use Rattle.script.specs.Failure.{Gives, ran_out};
ghost use Rattle.script.specs.Line.{texts};

use crate::failure::Failure;
use crate::number::{read_number, read_number_up_to};
use crate::reason::Reason;
use engine::{Call, Request, Terms};
use processor::RelativeAddress;
use std::alloc::{AllocError, Global};
use store::CellAddress;

// The largest buffer of a save.
const MOST_BYTES: u32 = 4_096;

// SIZE
fn read_buffer(heap: Global, word: &[u8]) -> Result<Vec<u8>, Failure<Reason>>
    ensures value { Gives vec_items result (buffer_of word.now) }
    ensures out_of_memory { IsTrue (ran_out result) → IsOk (buffer_of word.now) }
{
    let size = read_number_up_to(MOST_BYTES, word)?;
    let buffer = vec![in heap; 0; size as usize]?;
    Ok(buffer)
}

// Pairs of hexadecimal digits, and nothing else?
fn is_hexadecimal(word: &[u8]) -> bool
    ensures { result ≡ is_ok (decode_of word.now) }
{
    word.len() % 2 == 0 && word.iter().all(|byte| byte.is_ascii_hexdigit())
}

// HEX
fn read_bytes(heap: Global, word: &[u8]) -> Result<Vec<u8>, Failure<Reason>>
    ensures value { Gives vec_items result (bytes_of word.now) }
    ensures out_of_memory { IsTrue (ran_out result) → IsOk (bytes_of word.now) }
{
    if word == b"-".as_slice() {
        return Ok(Vec::new(heap));
    }
    if !is_hexadecimal(word) {
        return Err(Reason::NotANumber.into());
    }
    // Such a word is decoded unless memory is wanting.
    match hex::decode(heap, word) {
        Ok(bytes) => Ok(bytes),
        Err(_) => Err(Failure::OutOfMemory(AllocError)),
    }
}

// admit PLACE LOWER LENGTH ENTRY
fn admit(args: &[&[u8]]) -> Result<Call<Vec<u8>>, Reason>
    ensures { read_call result ≡ admit_call (texts args.now) }
{
    let [place, lower, length, entry] = args else {
        return Err(Reason::WordCount);
    };
    let place = read_number(place)?;
    let lower = CellAddress(read_number(lower)?);
    let length = read_number(length)?;
    let entry = RelativeAddress(read_number(entry)?);
    Ok(Call::Admit {
        place,
        lower,
        terms: Terms { length, entry },
    })
}

// load PLACE ADDRESS WORD
fn load(args: &[&[u8]]) -> Result<Call<Vec<u8>>, Reason>
    ensures { read_call result ≡ load_call (texts args.now) }
{
    let [place, address, word] = args else {
        return Err(Reason::WordCount);
    };
    let place = read_number(place)?;
    let address = RelativeAddress(read_number(address)?);
    let word = read_number(word)?;
    Ok(Call::Ask {
        place,
        request: Request::Load { address, word },
    })
}

// look PLACE ADDRESS
fn look(args: &[&[u8]]) -> Result<Call<Vec<u8>>, Reason>
    ensures { read_call result ≡ look_call (texts args.now) }
{
    let [place, address] = args else {
        return Err(Reason::WordCount);
    };
    let place = read_number(place)?;
    let address = RelativeAddress(read_number(address)?);
    Ok(Call::Ask {
        place,
        request: Request::Look { address },
    })
}

// run PLACE BUDGET
fn run(args: &[&[u8]]) -> Result<Call<Vec<u8>>, Reason>
    ensures { read_call result ≡ run_call (texts args.now) }
{
    let [place, budget] = args else {
        return Err(Reason::WordCount);
    };
    let place = read_number(place)?;
    let budget = read_number(budget)?;
    Ok(Call::Ask {
        place,
        request: Request::Run { budget },
    })
}

// answer PLACE A Q P
fn answer(args: &[&[u8]]) -> Result<Call<Vec<u8>>, Reason>
    ensures { read_call result ≡ answer_call (texts args.now) }
{
    let [place, a, q, p] = args else {
        return Err(Reason::WordCount);
    };
    let place = read_number(place)?;
    let a = read_number(a)?;
    let q = read_number(q)?;
    let p = read_number(p)?;
    Ok(Call::Ask {
        place,
        request: Request::Answer { a, q, p },
    })
}

// save PLACE SIZE
pub(crate) fn save(heap: Global, args: &[&[u8]]) -> Result<Call<Vec<u8>>, Failure<Reason>>
    ensures value { Gives (call_with vec_items) result (save_call (texts args.now)) }
    ensures out_of_memory { IsTrue (ran_out result) → IsOk (save_call (texts args.now)) }
{
    let [place, size] = args else {
        return Err(Reason::WordCount.into());
    };
    let place = read_number(place)?;
    let buffer = read_buffer(heap, size)?;
    Ok(Call::Ask {
        place,
        request: Request::Save { buffer },
    })
}

// restore PLACE HEX
pub(crate) fn restore(heap: Global, args: &[&[u8]]) -> Result<Call<Vec<u8>>, Failure<Reason>>
    ensures value { Gives (call_with vec_items) result (restore_call (texts args.now)) }
    ensures out_of_memory { IsTrue (ran_out result) → IsOk (restore_call (texts args.now)) }
{
    let [place, bytes] = args else {
        return Err(Reason::WordCount.into());
    };
    let place = read_number(place)?;
    let bytes = read_bytes(heap, bytes)?;
    Ok(Call::Ask {
        place,
        request: Request::Restore { bytes },
    })
}

// tell PLACE
fn tell(args: &[&[u8]]) -> Result<Call<Vec<u8>>, Reason>
    ensures { read_call result ≡ tell_call (texts args.now) }
{
    let [place] = args else {
        return Err(Reason::WordCount);
    };
    let place = read_number(place)?;
    Ok(Call::Ask {
        place,
        request: Request::Tell,
    })
}

// retire PLACE
fn retire(args: &[&[u8]]) -> Result<Call<Vec<u8>>, Reason>
    ensures { read_call result ≡ retire_call (texts args.now) }
{
    let [place] = args else {
        return Err(Reason::WordCount);
    };
    let place = read_number(place)?;
    Ok(Call::Retire { place })
}

// span PLACE
fn span(args: &[&[u8]]) -> Result<Call<Vec<u8>>, Reason>
    ensures { read_call result ≡ span_call (texts args.now) }
{
    let [place] = args else {
        return Err(Reason::WordCount);
    };
    let place = read_number(place)?;
    Ok(Call::Span { place })
}

// fixed CAUSE CELL
fn fixed(args: &[&[u8]]) -> Result<Call<Vec<u8>>, Reason>
    ensures { read_call result ≡ fixed_call (texts args.now) }
{
    let [cause, cell] = args else {
        return Err(Reason::WordCount);
    };
    let cause = read_number(cause)?;
    let address = CellAddress(read_number(cell)?);
    Ok(Call::FixedAddress { cause, address })
}

// The call of a name that carries no bytes. Not a match: with so many texts the last arm's goal stays open.
pub(crate) fn plain(name: &[u8], args: &[&[u8]]) -> Result<Call<Vec<u8>>, Reason>
    ensures { read_call result ≡ plain_call name.now (texts args.now) }
{
    if name == b"admit".as_slice() {
        admit(args)
    } else if name == b"load".as_slice() {
        load(args)
    } else if name == b"look".as_slice() {
        look(args)
    } else if name == b"run".as_slice() {
        run(args)
    } else if name == b"answer".as_slice() {
        answer(args)
    } else if name == b"tell".as_slice() {
        tell(args)
    } else if name == b"retire".as_slice() {
        retire(args)
    } else if name == b"span".as_slice() {
        span(args)
    } else if name == b"fixed".as_slice() {
        fixed(args)
    } else {
        Err(Reason::UnknownWord)
    }
}
