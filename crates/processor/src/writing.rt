// What instructions put: all of it, or none of it where a try fails.
ghost use Rattle.std.specs.Prelude.{◌≡◌, ◌+◌, OnErr, OnOk, is_ok, if◌then◌else◌};
ghost use Rattle.store.specs.Functions.{half_put, put_half_answer, put_whole_answer, whole_put};
ghost use Rattle.processor.specs.Beneath.{PutDoes, PutsDo};
ghost use Rattle.processor.specs.Effects.{put_done, put_tried, puts_done, puts_tried};
ghost use Rattle.processor.specs.Limits.{Becomes, between};
ghost use Rattle.processor.specs.References.{refer};
ghost use Rattle.processor.specs.Reporting.{limits_tried};
ghost use Rattle.processor.specs.Results.{puts_of};
ghost use Rattle.processor.specs.declared.report.ReferenceKind.TheVariants.{Write};

use super::effect::{Put, Puts};
use super::limits::Limits;
use super::references::{ReferenceFault, named};
use super::{ReferenceKind, RelativeAddress, Report};
use store::{Fault, Half, Store};
use words::{HalfWord, Word};

// A whole put fails only where there is no cell.
#[tactic(auto, using(crate::proofs::Between::exists_between))]
fn find_cell<S: Store>(
    store: &S,
    limits: Limits,
    address: RelativeAddress,
) -> Result<(), ReferenceFault>
    ensures { result ≡ limits_tried limits.length address.0 (put_whole_answer (between (S.cells store.now) limits) address.0) }
{
    let cell = limits.cell(address)?;
    if cell.0 >= store.count() {
        return Err(Fault::NoCell.into());
    }
    Ok(())
}

// Tries a whole put, and does not do it.
fn try_whole<S: Store>(store: &S, limits: Limits, address: RelativeAddress) -> Result<(), Report>
    ensures { result ≡ refer limits.length Write address.0 (put_whole_answer (between (S.cells store.now) limits) address.0) }
{
    Ok(named(
        ReferenceKind::Write,
        address,
        find_cell(store, limits, address),
    )?)
}

// Tried, and done if it does not fail.
#[tactic(auto, using(crate::proofs::Between::exists_between, crate::proofs::Between::nothing_becomes))]
fn put_whole<S: Store>(
    store: &mut S,
    limits: Limits,
    address: RelativeAddress,
    word: Word,
) -> Result<(), ReferenceFault>
    ensures answer { result ≡ limits_tried limits.length address.0 (put_whole_answer (between (S.cells store.old) limits) address.0) }
    ensures after { Becomes (S.cells store.old) limits (if is_ok result then whole_put (between (S.cells store.old) limits) address.0 word else between (S.cells store.old) limits) (S.cells store.new) }
    ensures does { OnOk result (S.puts_whole store.old (limits.lower + address.0) word store.new) }
    ensures refused { OnErr result (store.new ≡ store.old) }
{
    let cell = limits.cell(address)?;
    Ok(store.put_whole(cell, word.get())?)
}

#[tactic(auto, using(crate::proofs::Between::exists_between, crate::proofs::Between::cell_between, crate::proofs::Between::nothing_becomes))]
fn put_half<S: Store>(
    store: &mut S,
    limits: Limits,
    address: RelativeAddress,
    half: Half,
    number: HalfWord,
) -> Result<(), ReferenceFault>
    ensures answer { result ≡ limits_tried limits.length address.0 (put_half_answer (between (S.cells store.old) limits) address.0 half) }
    ensures after { Becomes (S.cells store.old) limits (if is_ok result then half_put (between (S.cells store.old) limits) address.0 half number else between (S.cells store.old) limits) (S.cells store.new) }
    ensures does { OnOk result (S.puts_half store.old (limits.lower + address.0) half number store.new) }
    ensures refused { OnErr result (store.new ≡ store.old) }
{
    let cell = limits.cell(address)?;
    Ok(store.put_half(cell, half, number.get())?)
}

#[inline(always)]
fn put<S: Store>(store: &mut S, limits: Limits, put: Put) -> Result<(), Report>
    ensures answer { result ≡ put_tried limits.length (between (S.cells store.old) limits) put }
    ensures after { Becomes (S.cells store.old) limits (if is_ok result then put_done (between (S.cells store.old) limits) put else between (S.cells store.old) limits) (S.cells store.new) }
    ensures does { OnOk result (PutDoes S.puts_whole S.puts_half limits put store.old store.new) }
    ensures refused { OnErr result (store.new ≡ store.old) }
{
    match put {
        Put::Whole(address, word) => Ok(named(
            ReferenceKind::Write,
            address,
            put_whole(store, limits, address, word),
        )?),
        Put::Half(address, half, number) => Ok(named(
            ReferenceKind::Write,
            address,
            put_half(store, limits, address, half, number),
        )?),
    }
}

// All that an instruction puts.
pub(crate) fn put_all<S: Store>(store: &mut S, limits: Limits, puts: Puts) -> Result<(), Report>
    ensures answer { result ≡ puts_tried limits.length (between (S.cells store.old) limits) (puts_of puts) }
    ensures after { Becomes (S.cells store.old) limits (if is_ok result then puts_done (between (S.cells store.old) limits) (puts_of puts) else between (S.cells store.old) limits) (S.cells store.new) }
    ensures does { OnOk result (PutsDo S.puts_whole S.puts_half limits (puts_of puts) store.old store.new) }
    ensures refused { OnErr result (store.new ≡ store.old) }
{
    match puts {
        Puts::Nothing => Ok(()),
        Puts::One(one) => put(store, limits, one),
        Puts::TwoWords(first, second) => {
            try_whole(store, limits, first.0)?;
            try_whole(store, limits, second.0)?;
            put(store, limits, Put::Whole(first.0, first.1))?;
            put(store, limits, Put::Whole(second.0, second.1))
        }
    }
}
