// References to a worker's words through its store.
ghost use Rattle.std.specs.Prelude.{◌≡◌};
ghost use Rattle.store.specs.Functions.{fetched};
ghost use Rattle.processor.specs.declared.report.ReferenceKind.TheVariants.{Fetch, Read};
ghost use Rattle.processor.specs.Limits.{Bounded, between};
ghost use Rattle.processor.specs.References.{refer};
ghost use Rattle.processor.specs.Reporting.{limits_tried, named};

use super::limits::Limits;
use super::{Reference, ReferenceKind, RelativeAddress, Report};
use store::{Fault, Store};
use words::Word;

// Why a reference fails: past the length there is no word, and at the word the store may have a fault.
#[derive(Clone, Copy, Debug, PartialEq, Eq)]
pub enum ReferenceFault {
    Protection,
    Parity(Fault),
}

impl From<Fault> for ReferenceFault {
    ghost use Rattle.processor.specs.declared.references.ReferenceFault.TheVariants.{Parity};

    ghost from_gives = { λ fault failed. failed ≡ Parity fault };

    fn from(fault: Fault) -> Self {
        ReferenceFault::Parity(fault)
    }
}

// A reference, and why it failed.
#[derive(Clone, Copy, Debug, PartialEq, Eq)]
pub(crate) struct FailedReference {
    reference: Reference,
    fault: ReferenceFault,
}

impl From<FailedReference> for Report {
    ghost use Rattle.processor.specs.Reporting.{reported};

    ghost from_gives = { λ failed report. report ≡ reported failed.reference failed.fault };

    fn from(failed: FailedReference) -> Self {
        match failed.fault {
            ReferenceFault::Protection => Report::Protection(failed.reference),
            ReferenceFault::Parity(fault) => Report::Parity(failed.reference, fault),
        }
    }
}

// What a reference answers, with the reference named if it failed.
#[inline(always)]
pub(crate) fn named<T>(
    kind: ReferenceKind,
    address: RelativeAddress,
    answer: Result<T, ReferenceFault>,
) -> Result<T, FailedReference>
    ensures { result ≡ named (record { kind = kind; address = address }) answer }
{
    match answer {
        Ok(found) => Ok(found),
        Err(fault) => Err(FailedReference {
            reference: Reference { kind, address },
            fault,
        }),
    }
}

// The words of a worker, to be read: a store, and where in it they lie.
#[derive(Drop)]
pub(crate) struct Words<'a, S> {
    store: &'a S,
    limits: Limits,
}

impl<'a, S: Store> Words<'a, S> {
    pub(crate) fn new(store: &'a S, limits: Limits) -> Words<'a, S>
        ensures store { result.store.now ≡ store.now }
        ensures limits { result.limits ≡ limits }
    {
        Words { store, limits }
    }

    // The word at an address, tried for protection and then for parity.
    #[tactic(auto, using(crate::proofs::Between::fetched_between))]
    #[inline(always)]
    fn word(&self, address: RelativeAddress) -> Result<Word, ReferenceFault>
        ensures value { result ≡ limits_tried self.now.limits.length address.0 (fetched (between (S.cells self.now.store.now) self.now.limits) address.0) }
        ensures bounded { Bounded self.now.limits }
    {
        let cell = self.limits.cell(address)?;
        Ok(self.store.fetch(cell)?)
    }

    // The next instruction, and what an instruction reads.
    pub(crate) fn fetch(&self, address: RelativeAddress) -> Result<Word, Report>
        ensures value { result ≡ refer self.now.limits.length Fetch address.0 (fetched (between (S.cells self.now.store.now) self.now.limits) address.0) }
        ensures bounded { Bounded self.now.limits }
    {
        Ok(named(ReferenceKind::Fetch, address, self.word(address))?)
    }

    #[inline(always)]
    pub(crate) fn read(&self, address: RelativeAddress) -> Result<Word, Report>
        ensures { result ≡ refer self.now.limits.length Read address.0 (fetched (between (S.cells self.now.store.now) self.now.limits) address.0) }
    {
        Ok(named(ReferenceKind::Read, address, self.word(address))?)
    }
}
