// What is asked of workers.
ghost use Rattle.std.specs.Prelude.{◌<◌, ◌≤◌};

use super::buffers::{any_bytes, any_record};
use super::programs::program_word;
use super::random::Random;
use engine::Request;
use processor::RelativeAddress;
use std::alloc::{AllocError, Global};

// Budgets of runs, one of them too large.
const BUDGETS: [u32; 12] = [0, 1, 1, 2, 3, 5, 8, 20, 50, 200, 1_000, 1_000_001];

// Sizes of buffers that a record is saved in, two of them too small.
const BUFFERS: [u32; 6] = [0, 28, 29, 29, 30, 40];

// An address, mostly of one of so many words.
fn any_address(random: &mut Random, length: u32) -> RelativeAddress
    requires some { 0 < length }
    requires few { length ≤ 32768 }
{
    RelativeAddress(match random.below(20) {
        0 => random.number(),
        1 => length,
        _ => random.below(length),
    })
}

// A number that mostly has no more than 30 bits.
fn any_word(random: &mut Random) -> u32 {
    let number = random.number();
    if random.once_in(24) {
        number
    } else {
        number % (1 << 30)
    }
}

// What P becomes, mostly the address of one of so many words.
fn any_p(random: &mut Random, length: u32) -> u32
    requires some { 0 < length }
    requires few { length ≤ 32768 }
{
    match random.below(40) {
        0 => random.number(),
        1 => random.below(1 << 17),
        2 => length,
        _ => random.below(length),
    }
}

fn any_load(random: &mut Random, length: u32) -> Request<Vec<u8>>
    requires some { 0 < length }
    requires few { length ≤ 32768 }
{
    let address = any_address(random, length);
    let word = if random.once_in(4) {
        any_word(random)
    } else {
        program_word(random, length)
    };
    Request::Load { address, word }
}

// What is asked, as often as it is to come.
#[derive(Clone, Copy, Debug, PartialEq, Eq)]
enum Asked {
    Load,
    Look,
    Run,
    Answer,
    Save,
    Restore,
    Tell,
}

const ASKED: [Asked; 15] = [
    Asked::Load,
    Asked::Load,
    Asked::Look,
    Asked::Run,
    Asked::Run,
    Asked::Run,
    Asked::Run,
    Asked::Run,
    Asked::Answer,
    Asked::Answer,
    Asked::Answer,
    Asked::Answer,
    Asked::Save,
    Asked::Restore,
    Asked::Tell,
];

// Something asked of a worker with so many words.
pub(crate) fn any_request(
    heap: Global,
    random: &mut Random,
    length: u32,
) -> Result<Request<Vec<u8>>, AllocError>
    requires some { 0 < length }
    requires few { length ≤ 32768 }
{
    Ok(match random.one_of(&ASKED) {
        Asked::Load => any_load(random, length),
        Asked::Look => Request::Look {
            address: any_address(random, length),
        },
        Asked::Run => Request::Run {
            budget: random.one_of(&BUDGETS),
        },
        Asked::Answer => Request::Answer {
            a: any_word(random),
            q: any_word(random),
            p: any_p(random, length),
        },
        Asked::Save => {
            let size = random.one_of(&BUFFERS);
            Request::Save {
                buffer: any_bytes(heap, random, size)?,
            }
        }
        Asked::Restore => Request::Restore {
            bytes: any_record(heap, random, length)?,
        },
        Asked::Tell => Request::Tell,
    })
}
