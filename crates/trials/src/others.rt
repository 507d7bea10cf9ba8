// Calls that are none of those for the worker.
ghost use Rattle.std.specs.Prelude.{◌<◌, ◌≤◌};

use super::layout::{Layout, NEIGHBOUR};
use super::random::Random;
use super::requests::any_request;
use engine::{Call, Request, Terms};
use processor::RelativeAddress;
use std::alloc::{AllocError, Global};
use store::CellAddress;

// When a call comes: before the worker is admitted, while it is there, or after it was retired.
#[derive(Clone, Copy, Debug, PartialEq, Eq)]
pub(crate) enum Moment {
    Before,
    Beside,
    After,
}

// What such a call is.
#[derive(Clone, Copy, Debug, PartialEq, Eq)]
enum Sort {
    // admits at another place: beside the worker, across its last cell, or anywhere
    AdmitBeside,
    AdmitAcross,
    AdmitAnywhere,
    // an admit at the worker's own place
    AdmitAtPlace,
    Run,
    Ask,
    Retire,
    Span,
    // a request and a span at the worker's own place
    AskAtPlace,
    SpanAtPlace,
    FixedAddress,
}

// What may come before the worker's admit: nothing that takes its cells or its place.
const BEFORE: [Sort; 12] = [
    Sort::AdmitBeside,
    Sort::AdmitBeside,
    Sort::AdmitBeside,
    Sort::Run,
    Sort::Run,
    Sort::Ask,
    Sort::Ask,
    Sort::Retire,
    Sort::Span,
    Sort::AskAtPlace,
    Sort::SpanAtPlace,
    Sort::FixedAddress,
];

// What may come while it is there: no request at its place.
const BESIDE: [Sort; 15] = [
    Sort::AdmitBeside,
    Sort::AdmitBeside,
    Sort::AdmitBeside,
    Sort::AdmitAcross,
    Sort::AdmitAnywhere,
    Sort::AdmitAtPlace,
    Sort::Run,
    Sort::Run,
    Sort::Run,
    Sort::Ask,
    Sort::Ask,
    Sort::Retire,
    Sort::Span,
    Sort::SpanAtPlace,
    Sort::FixedAddress,
];

// What may come after its retire: anything.
const AFTER: [Sort; 11] = [
    Sort::AdmitBeside,
    Sort::AdmitAcross,
    Sort::AdmitAnywhere,
    Sort::AdmitAtPlace,
    Sort::Run,
    Sort::Ask,
    Sort::Retire,
    Sort::Span,
    Sort::AskAtPlace,
    Sort::SpanAtPlace,
    Sort::FixedAddress,
];

impl Moment {
    fn any_sort(self, random: &mut Random) -> Sort {
        match self {
            Moment::Before => random.one_of(&BEFORE),
            Moment::Beside => random.one_of(&BESIDE),
            Moment::After => random.one_of(&AFTER),
        }
    }
}

// Cells beside the worker.
#[derive(Clone, Copy)]
struct Gap {
    from: u32,
    end: u32,
    ghost some: { from < end },
    ghost few: { end ≤ 256 },
}

impl Gap {
    // Those before the worker or those after it.
    fn any(random: &mut Random, layout: Layout) -> Gap {
        let end = layout.lower + layout.length;
        if layout.lower > 0 && random.once_in(2) {
            Gap {
                from: 0,
                end: layout.lower,
            }
        } else {
            Gap {
                from: end,
                end: layout.size,
            }
        }
    }

    // Some of these cells, by lower limit and length.
    fn part(self, random: &mut Random) -> (u32, u32) {
        let lower = self.from + random.below(self.end - self.from);
        (lower, 1 + random.below(self.end - lower))
    }
}

// A place other than this one, at times one that there is not.
fn other_place(random: &mut Random, place: u32) -> u32
    requires { place < 8 }
{
    if random.once_in(20) {
        return random.number();
    }
    let other = random.below(8);
    if other == place { 8 } else { other }
}

// The entry of a worker with so many words, at times past them.
fn any_entry(random: &mut Random, length: u32) -> RelativeAddress {
    let limit = length.max(1);
    RelativeAddress(if random.once_in(16) {
        length
    } else {
        random.below(limit)
    })
}

// Makes a neighbour at a place, in cells that are none of the worker's.
pub(crate) fn admit_beside(random: &mut Random, layout: Layout, place: u32) -> Call<Vec<u8>> {
    let (lower, length) = Gap::any(random, layout).part(random);
    Call::Admit {
        place,
        lower: CellAddress(lower),
        terms: Terms {
            length,
            entry: any_entry(random, length),
        },
    }
}

// Asks for the last cell of the worker's and some after it.
fn admit_across(random: &mut Random, layout: Layout, place: u32) -> Call<Vec<u8>> {
    Call::Admit {
        place,
        lower: CellAddress(layout.lower + layout.length - 1),
        terms: Terms {
            length: 1 + random.below(4),
            entry: RelativeAddress(0),
        },
    }
}

// Asks for room anywhere, which is mostly refused.
fn admit_anywhere(random: &mut Random, layout: Layout, place: u32) -> Call<Vec<u8>> {
    let length = match random.below(10) {
        0 => 0,
        1 => random.number(),
        _ => random.below(layout.size),
    };
    let lower = match random.below(10) {
        0 => random.number(),
        _ => random.below(layout.size),
    };
    Call::Admit {
        place,
        lower: CellAddress(lower),
        terms: Terms {
            length,
            entry: any_entry(random, length),
        },
    }
}

fn any_fixed_address(random: &mut Random) -> Call<Vec<u8>> {
    let address = if random.once_in(8) {
        random.number()
    } else {
        random.below(131_072)
    };
    Call::FixedAddress {
        cause: random.below(7),
        address: CellAddress(address),
    }
}

// Runs a neighbour, but not for long, so that some are still ready afterwards.
fn run_other(random: &mut Random, place: u32) -> Call<Vec<u8>> {
    Call::Ask {
        place,
        request: Request::Run {
            budget: random.below(30),
        },
    }
}

// Something asked at a place, as if of a neighbour.
pub(crate) fn ask_other(
    heap: Global,
    random: &mut Random,
    place: u32,
) -> Result<Call<Vec<u8>>, AllocError> {
    let request = any_request(heap, random, NEIGHBOUR)?;
    Ok(Call::Ask { place, request })
}

// A call that is none of those for the worker at this place. The words that the worker finds stay as they were.
pub(crate) fn any_other(
    heap: Global,
    random: &mut Random,
    layout: Layout,
    worker: u32,
    moment: Moment,
) -> Result<Call<Vec<u8>>, AllocError>
    requires { worker < 8 }
{
    let place = other_place(random, worker);
    Ok(match moment.any_sort(random) {
        Sort::AdmitBeside => admit_beside(random, layout, place),
        Sort::AdmitAcross => admit_across(random, layout, place),
        Sort::AdmitAnywhere => admit_anywhere(random, layout, place),
        Sort::AdmitAtPlace => admit_anywhere(random, layout, worker),
        Sort::Run => run_other(random, place),
        Sort::Ask => ask_other(heap, random, place)?,
        Sort::Retire => Call::Retire { place },
        Sort::Span => Call::Span { place },
        Sort::AskAtPlace => ask_other(heap, random, worker)?,
        Sort::SpanAtPlace => Call::Span { place: worker },
        Sort::FixedAddress => any_fixed_address(random),
    })
}
